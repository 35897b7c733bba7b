// What does a whole session print?
#![tactic(auto)]

pub mod course;
mod declined;
pub mod examples;
mod line;
mod orders;
mod phase;
mod rows;
