// What does an operation do to the registers?
#![tactic(auto)]

pub mod bits;
pub mod branch;
pub mod combine;
pub mod compare;
pub mod frame;
pub mod index;
pub mod modify;
pub mod pointers;
pub mod register_only;
pub mod rest;
