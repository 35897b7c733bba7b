// What do the operations of a register with memory do?
#![tactic(auto)]

pub mod combine;
pub mod stores;
pub mod words;
