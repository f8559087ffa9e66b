// The rules for a state of the machine: definitions and theorems, no code.
#![tactic(auto)]
