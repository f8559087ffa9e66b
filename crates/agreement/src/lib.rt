// A text and its image say one thing: theorems, no code.
#![tactic(auto)]
