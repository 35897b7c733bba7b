// What a live machine holds.
use crate::registers::Registers;
use crate::standing::Standing;

// The registers, how the machine stands, and the lines that are raised: bit n is line n.
#[derive(Clone, Copy)]
pub struct Live {
    pub registers: Registers,
    pub standing: Standing,
    pub lines: u32,
}
