// What is an access to memory, and what comes of it?
#![tactic(auto)]

pub mod cells;
pub mod fault;
pub mod words;
