// An address moved by a signed byte.
ghost use Rattle.std.specs.Prelude.{◌≡◌};
ghost use Rattle.alu.specs.Addresses.{displaced_by};

// The address plus the offset, a signed byte. Addresses go round at 65,536.
pub fn displaced(address: u16, offset: u8) -> u16
    ensures { result ≡ displaced_by address offset }
{
    // the offset's signed value, plus 128
    let lifted = u16::from(offset.wrapping_add(128));
    address.wrapping_add(lifted).wrapping_sub(128)
}
