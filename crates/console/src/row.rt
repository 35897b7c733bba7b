// A row: where the board stands after an order.
ghost use Rattle.std.specs.Prelude.{◌≡◌, ◌+◌, ◌≤◌, ◌++◌, Some, is_ok, if◌then◌else◌, vec_len, vec_capacity};
ghost use Rattle.std.specs.Fmt.{WritesOnOk};
ghost use Rattle.console.specs.Row.{row_bytes, row_formatted, row_text, with_row};

use crate::column::push_column;
use std::alloc::AllocError;
use std::fmt;

// The line that was obeyed, what it took, why it stopped, and the registers.
#[derive(Clone, Copy, Default)]
pub struct RegisterRow {
    pub line: u32,
    pub steps: u32,
    pub cycles: u32,
    // the number shown, 0 for none: the refusals themselves are of crates that this one does not stand on
    pub refusal: u8,
    pub pc: u16,
    pub a: u8,
    pub hx: u16,
    pub sp: u16,
    pub ccr: u8,
}

// Writes the columns of a row, which is passed by value so that the range of each number is known.
fn write_columns<W: fmt::Write>(row: RegisterRow, f: &mut fmt::Formatter<W>) -> fmt::Result
    ensures writes { WritesOnOk W.write_str_gives f.old result (row_formatted row) f.new }
    ensures columns { row_formatted row ≡ row_text row }
{
    let RegisterRow {
        line,
        steps,
        cycles,
        refusal,
        pc,
        a,
        hx,
        sp,
        ccr,
    } = row;
    write!(
        f,
        "{line:>6}{steps:>6}{cycles:>8}{refusal:>3}{pc:>6}{a:>4}{hx:>6}{sp:>6}{ccr:>4}"
    )
}

impl fmt::Display for RegisterRow {
    ghost output = { λ row. Some (row_text row) };

    fn fmt<W: fmt::Write>(&self, f: &mut fmt::Formatter<W>) -> fmt::Result {
        write_columns(*self, f)
    }
}

// No row is longer: nine columns of at most ten characters, and the line feed.
const LONGEST: usize = 91;

// Adds the row and its line feed to a text that has room for them.
fn push_columns(text: &mut Vec<u8>, row: &RegisterRow)
    requires { vec_len text.old + 91 ≤ vec_capacity text.old }
    ensures { text.new.items ≡ with_row text.old.items row.now }
{
    push_column(text, 6, row.line);
    push_column(text, 6, row.steps);
    push_column(text, 8, row.cycles);
    push_column(text, 3, u32::from(row.refusal));
    push_column(text, 6, u32::from(row.pc));
    push_column(text, 4, u32::from(row.a));
    push_column(text, 6, u32::from(row.hx));
    push_column(text, 6, u32::from(row.sp));
    push_column(text, 4, u32::from(row.ccr));
    text.push_reserved(b'\n');
}

// Adds the row and its line feed. Where memory is wanting, the text stays as it was. By `Display`, with a text of its own for each row, a
// session that prints many rows took 2.1 to 2.6 times as long.
pub fn push_row(text: &mut Vec<u8>, row: &RegisterRow) -> Result<(), AllocError>
    ensures { text.new.items ≡ (if is_ok result then text.old.items ++ row_bytes row.now else text.old.items) }
{
    text.reserve(LONGEST)?;
    push_columns(text, row);
    Ok(())
}
