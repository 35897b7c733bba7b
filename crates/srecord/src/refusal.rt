// Why a record line is refused.
ghost use Rattle.std.specs.Prelude.{◌≡◌};
ghost use Rattle.srecord.specs.Refusal.{line_number};

use bus::cell::BusRefusal;

// The reasons, in the order in which they are looked for.
#[derive(Clone, Copy, PartialEq, Eq, Debug)]
pub enum LineRefusal {
    // an end record was taken before
    AfterEnd,
    // too short for a record, or begins with another letter than `S`
    NoRecord,
    UnknownKind,
    NotHexadecimal,
    // the count is not that of the bytes that follow
    WrongLength,
    WrongChecksum,
    // the data runs past the highest address
    PastTheEnd,
    // the lowest cell that does not take its byte, and why
    NotOpen { address: u16, refusal: BusRefusal },
}

// The refusal's number.
impl From<LineRefusal> for u8 {
    ghost from_gives = { λ refusal number. number ≡ line_number refusal };

    fn from(refusal: LineRefusal) -> u8 {
        match refusal {
            LineRefusal::AfterEnd => 10,
            LineRefusal::NoRecord => 11,
            LineRefusal::UnknownKind => 12,
            LineRefusal::NotHexadecimal => 13,
            LineRefusal::WrongLength => 14,
            LineRefusal::WrongChecksum => 15,
            LineRefusal::PastTheEnd => 16,
            LineRefusal::NotOpen { .. } => 17,
        }
    }
}
