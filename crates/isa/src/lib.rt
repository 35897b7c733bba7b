// Which instruction is this opcode, and what does it cost?
#![tactic(auto)]

pub mod core08;
pub mod cycles;
mod first_page;
pub mod first_set;
pub mod model;
pub mod operation;
pub mod pages;
pub mod row;
mod second_page;
