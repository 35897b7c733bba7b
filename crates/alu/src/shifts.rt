// Shifts and rotations of a byte by one bit.
ghost use Rattle.std.specs.Prelude.{◌≡◌, ◌+◌, ◌*◌, ◌/◌, ◌%◌, pos, ◌+ℤ◌};
ghost use Rattle.alu.specs.Flags.{bit, bit_at};
ghost use Rattle.alu.specs.Sums.{signed_value};
ghost use Rattle.alu.specs.Shifts.{shift_of, shift_left_of, rotate_left_of, shift_right_of, rotate_right_of, arithmetic_shift_right_of};

use crate::flags::Flags;

// The flags that a shift leaves: C is the bit shifted out.
fn shifted(byte: u8, out: bool, flags: Flags) -> (u8, Flags)
    ensures { result ≡ shift_of byte out flags }
{
    let flags = flags.with_nz(byte);
    let flags = Flags {
        v: flags.n != out,
        c: out,
        ..flags
    };
    (byte, flags)
}

// One place to the left: a bit comes in at the right.
fn left(byte: u8, incoming: bool, flags: Flags) -> (u8, Flags)
    ensures { result ≡ shift_of (2 * byte % 256 + bit incoming) (bit_at 7 byte) flags }
{
    shifted(byte % 128 * 2 + u8::from(incoming), byte >= 128, flags)
}

// One place to the right: a bit comes in at the left.
fn right(byte: u8, incoming: bool, flags: Flags) -> (u8, Flags)
    ensures { result ≡ shift_of (128 * bit incoming + byte / 2) (bit_at 0 byte) flags }
{
    shifted(128 * u8::from(incoming) + byte / 2, byte % 2 == 1, flags)
}

// To the left, with a 0 from the right.
pub fn shift_left(byte: u8, flags: Flags) -> (u8, Flags)
    ensures value { result ≡ shift_left_of byte flags }
    ensures whole { 256 * bit result.1.c + result.0 ≡ 2 * byte }
{
    left(byte, false, flags)
}

// To the left, with C from the right.
pub fn rotate_left(byte: u8, flags: Flags) -> (u8, Flags)
    ensures value { result ≡ rotate_left_of byte flags }
    ensures whole { 256 * bit result.1.c + result.0 ≡ 2 * byte + bit flags.c }
{
    left(byte, flags.c, flags)
}

// To the right, with a 0 from the left.
pub fn shift_right(byte: u8, flags: Flags) -> (u8, Flags)
    ensures value { result ≡ shift_right_of byte flags }
    ensures whole { 2 * result.0 + bit result.1.c ≡ byte }
{
    right(byte, false, flags)
}

// To the right, with C from the left.
pub fn rotate_right(byte: u8, flags: Flags) -> (u8, Flags)
    ensures value { result ≡ rotate_right_of byte flags }
    ensures whole { 2 * result.0 + bit result.1.c ≡ 256 * bit flags.c + byte }
{
    right(byte, flags.c, flags)
}

// To the right, with the sign from the left.
pub fn arithmetic_shift_right(byte: u8, flags: Flags) -> (u8, Flags)
    ensures value { result ≡ arithmetic_shift_right_of byte flags }
    ensures whole { signed_value 8 result.0 +ℤ signed_value 8 result.0 +ℤ pos (bit result.1.c) ≡ signed_value 8 byte }
{
    right(byte, byte >= 128, flags)
}
