// Tests of numbers, and the bits of two bytes joined.
ghost use Rattle.std.specs.Prelude.{◌≡◌};
ghost use Rattle.alu.specs.Flags.{with_v, with_nz};
ghost use Rattle.alu.specs.Logic.{test_of, and_of, or_of, exclusive_or_of};

use crate::flags::Flags;
use crate::unsigned::Unsigned;

// A number that is answered, with the flags that it leaves: V as given, and N and Z of it.
pub(crate) fn with_overflow<N: Unsigned>(value: N, v: bool, flags: Flags) -> (N, Flags)
    ensures value { result.0 ≡ value }
    ensures flags { result.1 ≡ with_v v (with_nz N.BITS (N.number value) flags) }
{
    (value, flags.with_vnz(v, value))
}

// Tests a number that is loaded, stored or moved.
pub fn test<N: Unsigned>(value: N, flags: Flags) -> (N, Flags)
    ensures { (N.number result.0, result.1) ≡ test_of N.BITS (N.number value) flags }
{
    with_overflow(value, false, flags)
}

// The three joins are one line each: one function that takes the operator as a closure would make each call longer.

// The bits that are set in both bytes.
pub fn and(a: u8, b: u8, flags: Flags) -> (u8, Flags)
    ensures { result ≡ and_of a b flags }
{
    test(a & b, flags)
}

// The bits that are set in either byte.
pub fn or(a: u8, b: u8, flags: Flags) -> (u8, Flags)
    ensures { result ≡ or_of a b flags }
{
    test(a | b, flags)
}

// The bits in which two bytes differ.
pub fn exclusive_or(a: u8, b: u8, flags: Flags) -> (u8, Flags)
    ensures { result ≡ exclusive_or_of a b flags }
{
    test(a ^ b, flags)
}
