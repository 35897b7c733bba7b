// The orders: run some steps, raise a line, drop a line.
ghost use Rattle.std.specs.Prelude.{◌≡◌, ◌≤◌, length};
ghost use Rattle.std.specs.Result.{result_ok};
ghost use Rattle.console.specs.Order.{order_of, parts_of, number_of, digits_value};

use crate::understood::NotUnderstood;

// What a person asks for, with the number of steps or of the line.
#[derive(Clone, Copy, PartialEq, Eq, Debug)]
pub enum Order {
    Run(u32),
    Raise(u32),
    Drop(u32),
}

// The number that a few decimal digits write. With `from_utf8` and `parse`, after a look at each digit, an order took 83 instructions of the
// host more.
fn read_digits(digits: &[u8]) -> Option<u32>
    requires { length digits.now ≤ 5 }
    ensures { result ≡ digits_value 0 digits.now }
{
    let mut value: u32 = 0;
    for digit in digits {
        if !digit.is_ascii_digit() {
            return None;
        }
        value = value * 10 + u32::from(*digit - b'0');
    }
    Some(value)
}

// The number that one to five decimal digits write.
fn number(digits: &[u8]) -> Option<u32>
    ensures { result ≡ number_of digits.now }
{
    if digits.is_empty() || digits.len() > 5 {
        return None;
    }
    read_digits(digits)
}

// The letter and the number of a line, with one blank between them.
fn letter_and_number(line: &[u8]) -> Option<(u8, u32)>
    ensures { result ≡ parts_of line.now }
{
    let [letter, b' ', digits @ ..] = line else {
        return None;
    };
    let count = number(digits)?;
    Some((*letter, count))
}

// The order that a line is: a capital letter, one blank and a number. A letter that is none of the three is refused: a table of letters
// would be searched, and then still need that arm.
impl TryFrom<&[u8]> for Order {
    type Error = NotUnderstood;

    ghost try_from_gives = { λ line answer. result_ok answer ≡ order_of line.now };

    fn try_from(line: &[u8]) -> Result<Order, NotUnderstood> {
        let (letter, count) = letter_and_number(line).ok_or(NotUnderstood)?;
        match letter {
            b'R' => Ok(Order::Run(count)),
            b'U' => Ok(Order::Raise(count)),
            b'D' => Ok(Order::Drop(count)),
            _ => Err(NotUnderstood),
        }
    }
}
