// CBEQ, once its operand was read.
ghost use Rattle.std.specs.Prelude.{◌≡◌};
ghost use Rattle.effects.specs.Compare.{branched_where_a};

use crate::branch::go_by;
use crate::pointers::go_on;
use isa::row::Mode;
use state::registers::Registers;

// Branches where A equals a byte. H:X goes on by 1, in the modes that say so.
pub fn branch_where_a_is(byte: u8, offset: u8, mode: Mode, registers: &mut Registers)
    ensures { registers.new ≡ branched_where_a byte offset mode registers.old }
{
    let equal = registers.a == byte;
    go_on(mode, registers);
    if equal {
        go_by(offset, registers);
    }
}
