// Single bits of a number, counted from the lowest.
ghost use Rattle.std.specs.Prelude.{◌≡◌, ℕ, ◌<◌, true, false, if◌then◌else◌, nat_eq};
ghost use Rattle.alu.specs.Bits.{bit_of, with_bit, without_bit};

use crate::unsigned::Unsigned;

// Whether a bit is set. A number has no bit past its width.
pub fn is_bit_set<N: Unsigned>(value: N, place: u32) -> bool
    ensures { result ≡ bit_of N.BITS (N.number value) place }
{
    place < N::BITS && (N::widen(value) >> place) % 2 == 1
}

// Setting and clearing share the question whether there is such a bit: one function over a flag would ask the flag besides, and then
// do what these two do.

// The number with a bit set: no other bit changes.
#[tactic(auto, using(crate::proofs::SingleBits::set_value))]
pub fn set_bit<N: Unsigned>(value: N, place: u32) -> N
    ensures value { N.number result ≡ with_bit N.BITS (N.number value) place }
    ensures only { place < N.BITS → (other : ℕ) → bit_of N.BITS (N.number result) other ≡ (if nat_eq other place then true else bit_of N.BITS (N.number value) other) }
{
    if place < N::BITS {
        N::truncate(N::widen(value) | 1 << place)
    } else {
        value
    }
}

// The number with a bit cleared: no other bit changes.
#[tactic(auto, using(crate::proofs::SingleBits::clear_value))]
pub fn clear_bit<N: Unsigned>(value: N, place: u32) -> N
    ensures value { N.number result ≡ without_bit N.BITS (N.number value) place }
    ensures only { place < N.BITS → (other : ℕ) → bit_of N.BITS (N.number result) other ≡ (if nat_eq other place then false else bit_of N.BITS (N.number value) other) }
{
    if place < N::BITS {
        N::truncate(N::widen(value) & !(1 << place))
    } else {
        value
    }
}
