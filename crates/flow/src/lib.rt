// Which branches look at an operand, and where do they go?
#![tactic(auto)]

pub mod bits;
pub mod compare;
pub mod loops;
