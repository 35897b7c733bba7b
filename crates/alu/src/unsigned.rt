// Unsigned numbers by their width in bits.
ghost use Rattle.std.specs.Prelude.{◌≡◌, ℕ, ◌%◌, ◌^◌, ◌<◌, ◌≤◌};
ghost use Rattle.std.proofs.Common.{lit<, lit≤};

// A number of a fixed count of bits, at most 32 of them.
pub trait Unsigned: Copy {
    // how many bits there are
    ghost BITS: { ℕ };

    // the number that a value is
    ghost number: { Self → ℕ };

    const BITS: u32;

    // The number among those of 64 bits.
    fn widen(value: Self) -> u64
        ensures value { result ≡ number value }
        ensures fits { result < 2 ^ BITS };

    // The lowest bits of a number of 64 bits.
    fn truncate(wide: u64) -> Self
        ensures { number result ≡ wide % 2 ^ BITS };

    ghost at_least_one_bit: { 0 < BITS };

    ghost at_most_32_bits: { BITS ≤ 32 };
}

// The three widths differ in their type and its constants alone: the gate takes no impl that a macro of this repository writes.
// `as` asks that the number fits, so the bits above the width are cut first.

impl Unsigned for u8 {
    ghost BITS = { 8 };

    ghost number = { λ byte. byte };

    const BITS: u32 = 8;

    fn widen(byte: u8) -> u64 {
        u64::from(byte)
    }

    fn truncate(wide: u64) -> u8 {
        (wide % 256) as u8
    }

    ghost at_least_one_bit = { lit< tt };

    ghost at_most_32_bits = { lit≤ tt };
}

impl Unsigned for u16 {
    ghost BITS = { 16 };

    ghost number = { λ word. word };

    const BITS: u32 = 16;

    fn widen(word: u16) -> u64 {
        u64::from(word)
    }

    fn truncate(wide: u64) -> u16 {
        (wide % 65536) as u16
    }

    ghost at_least_one_bit = { lit< tt };

    ghost at_most_32_bits = { lit≤ tt };
}

impl Unsigned for u32 {
    ghost BITS = { 32 };

    ghost number = { λ value. value };

    const BITS: u32 = 32;

    fn widen(value: u32) -> u64 {
        u64::from(value)
    }

    fn truncate(wide: u64) -> u32 {
        (wide % 0x1_0000_0000) as u32
    }

    ghost at_least_one_bit = { lit< tt };

    ghost at_most_32_bits = { lit≤ tt };
}
