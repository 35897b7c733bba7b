// From the opcode to its row.
ghost use Rattle.std.specs.Prelude.{◌≡◌};
ghost use Rattle.access.specs.Access.{perform};
ghost use Rattle.machine.specs.Decode.{decoded, row_found};

use access::cells::read_cell;
use access::fault::Fault;
use bus::traits::Bus;
use isa::core08::Core;
use isa::row::{Page, Row};

// The byte that leads to the second opcode page.
const PREFIX: u8 = 0x9E;

// A row, and the address of its first operand byte.
#[derive(Clone, Copy)]
pub(crate) struct Decoded {
    pub row: Row,
    pub operand: u16,
}

// A row with its operand's place; where there is none, no instruction.
fn found(row: Option<Row>, operand: u16) -> Result<Decoded, Fault>
    ensures { result ≡ row_found row operand }
{
    row.map(|row| Decoded { row, operand })
        .ok_or(Fault::NoInstruction)
}

// Reads the opcode, behind its prefix if it has one, and finds its row. No core has a row at the prefix itself, so the first page is
// asked first.
pub(crate) fn decode<B: Bus, C: Core>(bus: &mut B, core: &C, pc: u16) -> Result<Decoded, Fault>
    ensures { (result, B.cells bus.new) ≡ perform (decoded (C.table core.now) pc) (B.cells bus.old) }
{
    let opcode = read_cell(bus, pc)?;
    match core.row(Page::First, opcode) {
        None if opcode == PREFIX => {
            let second = read_cell(bus, pc.wrapping_add(1))?;
            found(core.row(Page::Second, second), pc.wrapping_add(2))
        }
        row => found(row, pc.wrapping_add(1)),
    }
}
