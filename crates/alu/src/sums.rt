// Sums and differences.
ghost use Rattle.std.specs.Prelude.{◌≡◌, ◌+◌, ◌*◌, ◌^◌, ◌<◌, false};
ghost use Rattle.alu.specs.Flags.{bit};
ghost use Rattle.alu.specs.Sums.{sum_of, difference, difference_of, difference_overflows, Compared};

use crate::flags::Flags;
use crate::unsigned::Unsigned;

// Adds two bytes and a carry.
pub fn add(a: u8, b: u8, carry: bool, flags: Flags) -> (u8, Flags)
    ensures value { result ≡ sum_of a b carry flags }
    ensures whole { 256 * bit result.1.c + result.0 ≡ a + b + bit carry }
{
    let sum = u16::from(a) + u16::from(b) + u16::from(carry);
    // `as` asks that the number fits
    let result = (sum % 256) as u8;
    // the carries into bit 7 and out of it differ
    let overflows = (a % 128 + b % 128 + u8::from(carry) >= 128) != (sum >= 256);
    let flags = Flags {
        h: a % 16 + b % 16 + u8::from(carry) >= 16,
        c: sum >= 256,
        ..flags.with_vnz(overflows, result)
    };
    (result, flags)
}

// The difference of two numbers, less a borrow.
#[tactic(auto, using(crate::proofs::Differences::one_shifted))]
fn difference<N: Unsigned>(a: N, b: N, borrow: bool) -> N
    ensures { N.number result ≡ difference N.BITS (N.number a) (N.number b) borrow }
{
    N::truncate((1 << N::BITS) + N::widen(a) - (N::widen(b) + u64::from(borrow)))
}

// Whether the signed difference does not fit: the borrows into the top bit and out of it differ.
fn overflows<N: Unsigned>(a: N, b: N, borrow: bool) -> bool
    ensures { result ≡ difference_overflows N.BITS (N.number a) (N.number b) borrow }
{
    let (a, b, borrow) = (N::widen(a), N::widen(b), u64::from(borrow));
    let half: u64 = 1 << (N::BITS - 1);
    (a % half < b % half + borrow) != (a < b + borrow)
}

// The difference of two numbers, less a borrow, and its flags. A function of its own, on which the laws that `subtract` promises are
// proved.
fn difference_and_flags<N: Unsigned>(a: N, b: N, borrow: bool, flags: Flags) -> (N, Flags)
    ensures value { (N.number result.0, result.1) ≡ difference_of N.BITS (N.number a) (N.number b) borrow flags }
    ensures fits { (N.number a < 2 ^ N.BITS) × (N.number b < 2 ^ N.BITS) }
{
    let result = difference(a, b, borrow);
    let flags = Flags {
        c: N::widen(a) < N::widen(b) + u64::from(borrow),
        ..flags.with_vnz(overflows(a, b, borrow), result)
    };
    (result, flags)
}

// Subtracts a number and a borrow from a number.
pub fn subtract<N: Unsigned>(a: N, b: N, borrow: bool, flags: Flags) -> (N, Flags)
    ensures value { (N.number result.0, result.1) ≡ difference_of N.BITS (N.number a) (N.number b) borrow flags }
    ensures whole { 2 ^ N.BITS * bit result.1.c + N.number a ≡ N.number result.0 + N.number b + bit borrow }
    ensures compared { borrow ≡ false → Compared N.BITS (N.number a) (N.number b) result.1 }
{
    difference_and_flags(a, b, borrow, flags)
}
