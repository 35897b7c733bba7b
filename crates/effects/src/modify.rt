// A byte read, changed and put back.
ghost use Rattle.std.specs.Prelude.{◌≡◌};
ghost use Rattle.effects.specs.Modify.{modified};

use alu::flags::Flags;
use alu::logic::test;
use alu::shifts::{arithmetic_shift_right, rotate_left, rotate_right, shift_left, shift_right};
use alu::unary::{clear, complement, decrement, increment, negate};
use isa::operation::ReadModifyWrite;

// The byte and the flags that an operation makes of a byte. The kinds are closed: an arm each is plainer than a table.
pub fn modify(operation: ReadModifyWrite, byte: u8, flags: Flags) -> (u8, Flags)
    ensures { result ≡ modified operation byte flags }
{
    match operation {
        ReadModifyWrite::Neg => negate(byte, flags),
        ReadModifyWrite::Com => complement(byte, flags),
        ReadModifyWrite::Lsr => shift_right(byte, flags),
        ReadModifyWrite::Ror => rotate_right(byte, flags),
        ReadModifyWrite::Asr => arithmetic_shift_right(byte, flags),
        ReadModifyWrite::Lsl => shift_left(byte, flags),
        ReadModifyWrite::Rol => rotate_left(byte, flags),
        ReadModifyWrite::Dec => decrement(byte, flags),
        ReadModifyWrite::Inc => increment(byte, flags),
        ReadModifyWrite::Tst => test(byte, flags),
        ReadModifyWrite::Clr => clear(flags),
    }
}
