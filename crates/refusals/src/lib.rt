// A refusal is given exactly when its row says so: theorems, no code.
#![tactic(auto)]
