// Bits of a memory byte.
ghost use Rattle.std.specs.Prelude.{◌≡◌};
ghost use Rattle.effects.specs.Bits.{bit_changed, branched_on};

use crate::branch::go_by;
use alu::bits::{clear_bit, is_bit_set, set_bit};
use isa::operation::{BitBranch, BitChange};
use state::registers::Registers;

// The byte that BSET or BCLR makes of a byte. The kinds are closed: an arm each is plainer than a table.
pub fn change_bit(change: BitChange, byte: u8) -> u8
    ensures { result ≡ bit_changed change byte }
{
    match change {
        BitChange::Bset(bit) => set_bit(byte, bit as u32),
        BitChange::Bclr(bit) => clear_bit(byte, bit as u32),
    }
}

// BRSET or BRCLR on a byte: C becomes the tested bit, and the branch goes by it. The kinds are closed: an arm each is plainer than
// a table.
pub fn branch_on(branch: BitBranch, byte: u8, offset: u8, registers: &mut Registers)
    ensures { registers.new ≡ branched_on branch byte offset registers.old }
{
    let (bit, wanted) = match branch {
        BitBranch::Brset(bit) => (bit, true),
        BitBranch::Brclr(bit) => (bit, false),
    };
    let tested = is_bit_set(byte, bit as u32);
    registers.flags.c = tested;
    if tested == wanted {
        go_by(offset, registers);
    }
}
