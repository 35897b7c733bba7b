// Which operations put a byte back, and what is it then?
#![tactic(auto)]

pub mod bits;
pub mod modify;
pub mod moves;
