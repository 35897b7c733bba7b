// Decimal adjustment.
ghost use Rattle.std.specs.Prelude.{◌≡◌};
ghost use Rattle.alu.specs.Decimal.{low_adjusted, high_adjusted, decimal_adjust_of, DecimalSum};

use crate::flags::Flags;

// Makes a sum of two bytes that each hold two decimal digits two decimal digits again.
pub fn decimal_adjust(a: u8, flags: Flags) -> (u8, Flags)
    ensures value { result ≡ decimal_adjust_of a flags }
    ensures digits { DecimalSum (a, flags) result }
{
    let low = adjusts_low(a, flags);
    let high = adjusts_high(a, flags);
    let result = a.wrapping_add(6 * u8::from(low) + 0x60 * u8::from(high));
    let flags = Flags {
        c: high,
        ..flags.with_nz(result)
    };
    (result, flags)
}

// Two questions of one line: as one function over a number, its limit and a flag, each call would be as long as its question.

// Whether the low digit is above 9, or the sum had a half carry.
fn adjusts_low(a: u8, flags: Flags) -> bool
    ensures { result ≡ low_adjusted a flags }
{
    (a % 16 > 9) | flags.h
}

// Whether the digits are above 99, or the sum had a carry.
fn adjusts_high(a: u8, flags: Flags) -> bool
    ensures { result ≡ high_adjusted a flags }
{
    (a > 0x99) | flags.c
}
