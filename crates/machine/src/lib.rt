// What does one instruction do?
#![tactic(auto)]

mod act;
mod decode;
pub mod execute;
mod operate;
pub mod request;
