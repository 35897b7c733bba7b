// Products and quotients.
ghost use Rattle.std.specs.Prelude.{◌≡◌, ◌+◌, ◌*◌, ◌<◌};
ghost use Rattle.alu.specs.Products.{multiply_of, divide_of};

use crate::flags::Flags;
use crate::words::word;

// Multiplies two bytes. The product's high byte comes first.
pub fn multiply(x: u8, a: u8, flags: Flags) -> ((u8, u8), Flags)
    ensures value { result ≡ multiply_of x a flags }
    ensures product { 256 * result.0.0 + result.0.1 ≡ x * a }
{
    let [high, low] = (u16::from(x) * u16::from(a)).to_be_bytes();
    let flags = Flags {
        h: false,
        c: false,
        ..flags
    };
    ((high, low), flags)
}

// Divides the word h:a by x. The quotient, which goes to a, comes before the remainder, which goes to h.
// A quotient that does not fit a byte, and a division by 0, set C and leave a and h as they are.
pub fn divide(h: u8, a: u8, x: u8, flags: Flags) -> ((u8, u8), Flags)
    ensures value { result ≡ divide_of h a x flags }
    ensures whole { h < x → result.0.0 * x + result.0.1 ≡ 256 * h + a }
    ensures rest { h < x → result.0.1 < x }
{
    if h >= x {
        return ((a, h), Flags { c: true, ..flags });
    }
    let dividend = word(h, a);
    let divisor = u16::from(x);
    let quotient = (dividend / divisor) as u8;
    let remainder = (dividend % divisor) as u8;
    let flags = Flags {
        z: quotient == 0,
        c: false,
        ..flags
    };
    ((quotient, remainder), flags)
}
