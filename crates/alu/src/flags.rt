// The six flags of the condition code register.
ghost use Rattle.std.specs.Prelude.{◌≡◌, ◌+◌};
ghost use Rattle.alu.specs.Flags.{ccr_byte, ccr_flags, fixed_set, with_v, with_nz};

use crate::bits::is_bit_set;
use crate::unsigned::Unsigned;

// What an instruction tells of its result.
#[derive(Clone, Copy, Default, PartialEq, Eq, Debug)]
pub struct Flags {
    // overflow: the signed result does not fit
    pub v: bool,
    // half carry, from bit 3
    pub h: bool,
    // interrupts are masked
    pub i: bool,
    // negative: the top bit of the result
    pub n: bool,
    // the result is zero
    pub z: bool,
    // carry, borrow, or the bit shifted out
    pub c: bool,
}

impl Flags {
    // The flags in their bits of the condition code byte, and bits 6 and 5 clear.
    fn placed(self) -> u8
        ensures { 64 + 32 + result ≡ ccr_byte self }
    {
        128 * u8::from(self.v)
            + 16 * u8::from(self.h)
            + 8 * u8::from(self.i)
            + 4 * u8::from(self.n)
            + 2 * u8::from(self.z)
            + u8::from(self.c)
    }

    // These flags with N and Z of a number.
    pub(crate) fn with_nz<N: Unsigned>(self, value: N) -> Flags
        ensures { result ≡ with_nz N.BITS (N.number value) self }
    {
        Flags {
            n: is_bit_set(value, N::BITS - 1),
            z: N::widen(value) == 0,
            ..self
        }
    }

    // These flags with V as given, and N and Z of a number.
    pub(crate) fn with_vnz<N: Unsigned>(self, v: bool, value: N) -> Flags
        ensures { result ≡ with_v v (with_nz N.BITS (N.number value) self) }
    {
        Flags {
            v,
            ..self.with_nz(value)
        }
    }
}

impl From<Flags> for u8 {
    ghost from_gives = { λ flags byte. (byte ≡ ccr_byte flags) × (ccr_flags byte ≡ flags) };

    // The condition code byte. Bits 6 and 5 are always set.
    #[tactic(auto, using(crate::proofs::Codes::flags_back))]
    fn from(flags: Flags) -> u8 {
        64 + 32 + flags.placed()
    }
}

impl From<u8> for Flags {
    ghost from_gives = { λ byte flags. (flags ≡ ccr_flags byte) × (ccr_byte flags ≡ fixed_set byte) };

    // The flags of a condition code byte. Bits 6 and 5 are ignored.
    fn from(byte: u8) -> Flags {
        Flags {
            v: is_bit_set(byte, 7),
            h: is_bit_set(byte, 4),
            i: is_bit_set(byte, 3),
            n: is_bit_set(byte, 2),
            z: is_bit_set(byte, 1),
            c: is_bit_set(byte, 0),
        }
    }
}
