// What does a record line say, and what does taking it do to a memory?
#![tactic(auto)]

pub mod address;
pub mod digits;
pub mod examples;
pub mod hex_digits;
pub mod load;
pub mod reader;
pub mod record;
pub mod refusal;
