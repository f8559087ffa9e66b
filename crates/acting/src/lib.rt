// What a statement does, from what it reads: the code.
#![tactic(auto)]

pub mod clearing;
pub mod doing;
pub mod values;
