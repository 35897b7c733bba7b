// The rows of a session.
ghost use Rattle.std.specs.Prelude.{◌≡◌, ◌++◌, is_ok, if◌then◌else◌};
ghost use Rattle.session.specs.Rows.{blank_row, printed_row, register_row};

use crate::declined::Declined;
use console::row::{RegisterRow, push_row};
use state::registers::Registers;
use std::alloc::AllocError;

// What an order took: its steps and their cycles.
#[derive(Clone, Copy, Default)]
pub struct Ran {
    pub steps: u32,
    pub cycles: u32,
    // the number of what ended it, 0 for none: a board's run answers that number by a rule of the project
    pub ended: u8,
}

// The row of a line that is refused before the board is live: there are no registers to show.
pub(crate) fn blank_row(line: u32, declined: Declined) -> RegisterRow
    ensures { result ≡ blank_row line declined }
{
    RegisterRow {
        line,
        refusal: declined.into(),
        ..RegisterRow::default()
    }
}

// The row of an order that was obeyed or declined; a declined one took no step. The registers are copied one by one: `console`, whose row
// it is, does not stand on `state`.
pub(crate) fn register_row(
    line: u32,
    obeyed: Result<Ran, Declined>,
    registers: Registers,
) -> RegisterRow
    ensures { result ≡ register_row line obeyed registers }
{
    let ran = obeyed.unwrap_or_else(|declined| Ran {
        ended: declined.into(),
        ..Ran::default()
    });
    RegisterRow {
        line,
        steps: ran.steps,
        cycles: ran.cycles,
        refusal: ran.ended,
        pc: registers.pc,
        a: registers.a,
        hx: registers.hx(),
        sp: registers.sp,
        ccr: u8::from(registers.flags),
    }
}

// Adds the row that a line has, if it has one, and a line feed. Where memory is wanting, the text stays as it was.
pub(crate) fn print_row(text: &mut Vec<u8>, row: Option<RegisterRow>) -> Result<(), AllocError>
    ensures { text.new.items ≡ (if is_ok result then text.old.items ++ printed_row row else text.old.items) }
{
    match row {
        Some(row) => push_row(text, &row),
        None => Ok(()),
    }
}
