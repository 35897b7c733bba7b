// What a record line says.
ghost use Rattle.std.specs.Prelude.{◌≡◌};
ghost use Rattle.srecord.specs.Record.{kind_of, count_allowed, parsed_by, parsed_of};

use crate::address::HexAddress;
use crate::hex_digits::HexDigits;
use crate::refusal::LineRefusal;

// A record borrows its digits from the line: the four of its address, and those of its data.
#[derive(Clone, Copy, Debug)]
pub enum Record<'a> {
    Header {
        digits: HexDigits<'a>,
    },
    Data {
        address: HexAddress<'a>,
        digits: HexDigits<'a>,
    },
    End {
        address: HexAddress<'a>,
    },
}

// The kinds of record. They stand beside `Record`, since a line of an unknown kind is refused before its digits are read, when there is no
// record yet.
#[derive(Clone, Copy)]
pub(crate) enum Kind {
    Header,
    Data,
    End,
}

// The kind that a record line's second character names. Any other character is refused: a table of characters would be searched, and then
// still need that arm.
impl TryFrom<u8> for Kind {
    type Error = LineRefusal;

    ghost try_from_gives = { λ character answer. answer ≡ kind_of character };

    fn try_from(character: u8) -> Result<Kind, LineRefusal> {
        match character {
            b'0' => Ok(Kind::Header),
            b'1' => Ok(Kind::Data),
            b'9' => Ok(Kind::End),
            _ => Err(LineRefusal::UnknownKind),
        }
    }
}

impl Kind {
    // Whether a record of this kind may count so many bytes: an end record has an address and no data. No arm takes the rest, so that
    // the compiler asks it of a new kind; a comparison with `End` alone would allow that one unseen.
    pub(crate) fn allows(self, count: u8) -> bool
        ensures { result ≡ count_allowed self count }
    {
        match self {
            Kind::Header | Kind::Data => true,
            Kind::End => count == 3,
        }
    }

    // The record of this kind. An arm a kind, since each keeps other parts of the two; a table of what makes them would hand out function
    // pointers, which the project has none of.
    pub(crate) fn record<'a>(self, address: HexAddress<'a>, digits: HexDigits<'a>) -> Record<'a>
        ensures { parsed_by result ≡ parsed_of self address.entry.digits.characters.now digits.entry.characters.now }
    {
        match self {
            Kind::Header => Record::Header { digits },
            Kind::Data => Record::Data { address, digits },
            Kind::End => Record::End { address },
        }
    }
}
