// How does a person talk to the emulator?
#![tactic(auto)]

mod column;
pub mod examples;
pub mod first;
pub mod lines;
pub mod order;
pub mod row;
pub mod understood;
