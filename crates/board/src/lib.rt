// What may be asked of a board, and what does it answer?
#![tactic(auto)]

pub mod board;
pub mod empty;
pub mod lines;
pub mod live;
pub mod loading;
pub mod ready;
pub mod refusal;
pub mod run;
pub mod stages;
pub mod views;
