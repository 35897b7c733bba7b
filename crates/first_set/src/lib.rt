// What does an instruction of the first set do?
#![tactic(auto)]

pub mod meaning;
