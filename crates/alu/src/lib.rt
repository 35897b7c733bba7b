// What is the result, and which flags?
#![tactic(auto)]

pub mod addresses;
pub mod bits;
pub mod decimal;
pub mod examples;
pub mod flags;
pub mod logic;
pub mod products;
pub mod shifts;
pub mod sums;
pub mod unary;
pub mod unsigned;
pub mod words;
