// What does an instruction work on, and where is its operand?
#![tactic(auto)]

pub mod address;
pub mod processor;
