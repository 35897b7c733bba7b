// Reading a record line.
ghost use Rattle.std.specs.Prelude.{◌≡◌, ◌+◌, ◌*◌, ◌≤◌, length};
ghost use Rattle.srecord.specs.Digits.{byte_at};
ghost use Rattle.srecord.specs.Reader.{record_of, record_of_digits, right_length, right_checksum};
ghost use Rattle.srecord.specs.Record.{answer_parsed};

use crate::address::HexAddress;
use crate::hex_digits::HexDigits;
use crate::record::{Kind, Record};
use crate::refusal::LineRefusal;

// The fewest digits after `S` and the kind: those of the count, the address and the checksum.
const FEWEST_DIGITS: usize = 8;

// Reads a line, which has no line feed.
pub fn read_record(line: &[u8]) -> Result<Record<'_>, LineRefusal>
    ensures { answer_parsed result ≡ record_of line.now }
{
    match line {
        [b'S', kind, digits @ ..] if digits.len() >= FEWEST_DIGITS => {
            read_digits(Kind::try_from(*kind)?, digits)
        }
        _ => Err(LineRefusal::NoRecord),
    }
}

// Reads what follows `S` and the kind.
fn read_digits(kind: Kind, characters: &[u8]) -> Result<Record<'_>, LineRefusal>
    requires { 8 ≤ length characters.now }
    ensures { answer_parsed result ≡ record_of_digits kind characters.now }
{
    let digits = HexDigits::try_from(characters)?;
    if !is_right_length(kind, digits) {
        return Err(LineRefusal::WrongLength);
    }
    if !is_right_checksum(digits) {
        return Err(LineRefusal::WrongChecksum);
    }
    let (_count, rest) = digits.split_at(2);
    let (address, rest) = rest.split_at(4);
    let (data, _checksum) = rest.split_at(rest.len() - 2);
    Ok(kind.record(HexAddress { digits: address }, data))
}

// Whether the count is that of the bytes that follow it. As there are eight digits or more, a right count is 3 or more.
fn is_right_length(kind: Kind, digits: HexDigits<'_>) -> bool
    requires { 8 ≤ length digits.characters.now }
    ensures { result ≡ right_length kind digits.entry.characters.now }
{
    let count = digits.byte(0);
    digits.len() == 2 + 2 * usize::from(count) && kind.allows(count)
}

// Whether the last byte is the checksum of those before it.
fn is_right_checksum(digits: HexDigits<'_>) -> bool
    requires { length digits.characters.now ≡ 2 + 2 * byte_at digits.characters.now 0 }
    ensures { result ≡ right_checksum digits.entry.characters.now }
{
    let (summed, last) = digits.split_at(digits.len() - 2);
    last.byte(0) == summed.checksum()
}
