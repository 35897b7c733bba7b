// Hexadecimal digits, and the bytes that pairs of them spell.
ghost use Rattle.std.specs.Prelude.{◌≡◌, is_some, if◌then◌else◌, Ok, Err};
ghost use Rattle.srecord.specs.declared.refusal.LineRefusal.TheVariants.{NotHexadecimal};
ghost use Rattle.srecord.specs.Digits.{all_digits, digit_of, pair_of};

use crate::refusal::LineRefusal;

// The value of a hexadecimal digit, in either letter case.
pub fn digit(character: u8) -> Option<u8>
    ensures { result ≡ digit_of character }
{
    char::from(character).to_digit(16).map(|value| value as u8)
}

// The byte that two digits spell. Each digit's value is taken apart by `let .. else` by a rule of the project.
pub fn pair(high: u8, low: u8) -> Result<u8, LineRefusal>
    ensures { result ≡ pair_of high low }
{
    let Some(high) = digit(high) else {
        return Err(LineRefusal::NotHexadecimal);
    };
    let Some(low) = digit(low) else {
        return Err(LineRefusal::NotHexadecimal);
    };
    Ok(16 * high + low)
}

// Refuses a character that is no digit. By the same rule its value is taken apart by `let .. else`, whose else is the refusal.
fn require_digit(character: u8) -> Result<(), LineRefusal>
    ensures { result ≡ (if is_some (digit_of character) then Ok tt else Err NotHexadecimal) }
{
    let Some(_value) = digit(character) else {
        return Err(LineRefusal::NotHexadecimal);
    };
    Ok(())
}

// Refuses characters of which one is no digit. A loop: by `try_for_each` the check found no proof by itself.
pub(crate) fn all_hexadecimal(characters: &[u8]) -> Result<(), LineRefusal>
    ensures { result ≡ (if all_digits characters.now then Ok tt else Err NotHexadecimal) }
{
    for character in characters {
        require_digit(*character)?;
    }
    Ok(())
}
