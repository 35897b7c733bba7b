// One row of a core's table.
ghost use Rattle.std.specs.Prelude.{◌≡◌};
ghost use Rattle.isa.specs.Row.{row_on};

use crate::cycles::Cycles;
use crate::model::Model;
use crate::operation::Operation;

// How an instruction finds its operand.
#[derive(Clone, Copy)]
pub enum Mode {
    // INH: none, or the registers that the operation names
    Inherent,
    // INH: the accumulator
    InherentA,
    // INH: the index register's low byte
    InherentX,
    // IMM: the bytes after the opcode
    Immediate,
    // DIR: the memory byte at an address below 256
    Direct,
    // EXT: the memory byte at an address
    Extended,
    // IX2: at H:X plus a word
    Indexed2,
    // IX1: at H:X plus a byte
    Indexed1,
    // IX: at H:X
    Indexed,
    // SP2: at SP plus a word
    Stack2,
    // SP1: at SP plus a byte
    Stack1,
    // REL: a signed offset from the next instruction
    Relative,
    // IX1+: at H:X plus a byte, and H:X goes on by 1
    Indexed1Plus,
    // IX+: at H:X, and H:X goes on by 1
    IndexedPlus,
    // DD: from a direct address to a direct address
    DirectDirect,
    // DIX+: from a direct address to H:X, which goes on by 1
    DirectIndexedPlus,
    // IMD: the byte after the opcode to a direct address
    ImmediateDirect,
    // IX+D: from H:X, which goes on by 1, to a direct address
    IndexedPlusDirect,
}

// The page of an opcode: the second one follows `$9E`.
#[derive(Clone, Copy)]
pub enum Page {
    First,
    Second,
}

// A place of a page as it is written down: operation, mode, bytes and cycles, or none. A tuple, unlike `Row`, so that each place is a
// line of the page.
pub type Place = Option<(Operation, Mode, u8, Cycles)>;

// An instruction on a core: what it does, how it finds its operand, its length in bytes, and what it costs.
#[derive(Clone, Copy)]
pub struct Row {
    pub operation: Operation,
    pub mode: Mode,
    pub bytes: u8,
    pub cycles: u8,
}

// The row that a place holds on a core.
pub fn row_on(model: Model, place: Place) -> Option<Row>
    ensures { result ≡ row_on model place }
{
    let (operation, mode, bytes, cycles) = place?;
    let cycles = cycles.on(model)?;
    Some(Row {
        operation,
        mode,
        bytes,
        cycles,
    })
}
