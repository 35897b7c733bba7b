// What does an address show, and may it change?
#![tactic(auto)]

pub mod cell;
pub mod open;
pub mod traits;
