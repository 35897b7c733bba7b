// A word of two bytes.
ghost use Rattle.std.specs.Prelude.{◌≡◌};
ghost use Rattle.alu.specs.Words.{word_of, high_byte, low_byte};

// The word of a high byte and a low byte: the library's conversion by a name, whose contract says that each half comes back. The way
// back is the library's `to_be_bytes`.
pub fn word(high: u8, low: u8) -> u16
    ensures value { result ≡ word_of high low }
    ensures upper { high_byte result ≡ high }
    ensures lower { low_byte result ≡ low }
{
    u16::from_be_bytes([high, low])
}
