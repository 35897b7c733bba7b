// What does a live machine hold: registers, standing, lines?
#![tactic(auto)]

pub mod lines;
pub mod live;
pub mod registers;
pub mod standing;
