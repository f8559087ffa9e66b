// What the listing of an image says, line by line, and that translating it gives the image back: definitions and theorems, no code.
#![tactic(auto)]
