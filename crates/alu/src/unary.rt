// What is done to one byte.
ghost use Rattle.std.specs.Prelude.{◌≡◌, not, pos, ◌+ℤ◌, ◌-ℤ◌, neg_ℤ};
ghost use Rattle.alu.specs.Sums.{signed_value, fits_in};
ghost use Rattle.alu.specs.Unary.{increment_of, decrement_of, negate_of, complement_of, clear_of, swapped};

use crate::flags::Flags;
use crate::logic::{test, with_overflow};
use crate::sums::subtract;

// One more. C keeps.
pub fn increment(byte: u8, flags: Flags) -> (u8, Flags)
    ensures value { result ≡ increment_of byte flags }
    ensures overflow { result.1.v ≡ not (fits_in 8 (signed_value 8 byte +ℤ pos 1)) }
{
    with_overflow(byte.wrapping_add(1), byte == 0x7f, flags)
}

// One less. C keeps.
pub fn decrement(byte: u8, flags: Flags) -> (u8, Flags)
    ensures value { result ≡ decrement_of byte flags }
    ensures overflow { result.1.v ≡ not (fits_in 8 (signed_value 8 byte -ℤ pos 1)) }
{
    with_overflow(byte.wrapping_sub(1), byte == 0x80, flags)
}

// Takes the byte from 0.
pub fn negate(byte: u8, flags: Flags) -> (u8, Flags)
    ensures value { result ≡ negate_of byte flags }
    ensures overflow { result.1.v ≡ not (fits_in 8 (neg_ℤ (signed_value 8 byte))) }
{
    subtract(0, byte, false, flags)
}

// `complement` and `clear` are one call of `test` each: a function of both would be called with `!byte, true` and `0, flags.c`,
// which is no shorter.

// Turns every bit.
pub fn complement(byte: u8, flags: Flags) -> (u8, Flags)
    ensures { result ≡ complement_of byte flags }
{
    test(!byte, Flags { c: true, ..flags })
}

// Zero in the place of the byte. C keeps.
pub fn clear(flags: Flags) -> (u8, Flags)
    ensures { result ≡ clear_of flags }
{
    test(0, flags)
}

// The two halves of the byte change places.
pub fn swap_nibbles(a: u8) -> u8
    ensures { result ≡ swapped a }
{
    16 * (a % 16) + a / 16
}
