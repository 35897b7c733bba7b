// How does the program call, return and use the stack?
#![tactic(auto)]

pub mod interrupt;
pub mod jumps;
pub mod returns;
pub mod stack;
