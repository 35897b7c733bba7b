// The address of a record.
ghost use Rattle.std.specs.Prelude.{◌≡◌, length};
ghost use Rattle.srecord.specs.Digits.{address_of};

use crate::hex_digits::HexDigits;

// The four digits of an address.
#[derive(Clone, Copy, Debug)]
pub struct HexAddress<'a> {
    pub digits: HexDigits<'a>,
    pub ghost four: { length digits.characters.now ≡ 4 },
}

// The address that the digits spell.
impl<'a> From<HexAddress<'a>> for u16 {
    ghost from_gives = { λ address value. value ≡ address_of address.digits.characters.now };

    fn from(address: HexAddress<'a>) -> u16 {
        u16::from_be_bytes([address.digits.byte(0), address.digits.byte(1)])
    }
}
