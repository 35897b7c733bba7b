// Why a call of a board is refused.
ghost use Rattle.std.specs.Prelude.{◌≡◌};
ghost use Rattle.board.specs.Refusal.{refusal_number};
ghost use Rattle.board.specs.declared.refusal.Refusal.TheVariants.{Line};

use srecord::refusal::LineRefusal;

#[derive(Clone, Copy, PartialEq, Eq, Debug)]
pub enum Refusal {
    // a record line was refused
    Line(LineRefusal),
    // an image is closed before its end record
    NoEndRecord,
    // a halted board takes no step
    BoardHalted,
    // the clock has passed its limit
    ClockPastLimit,
    // a stopped board takes no step while no line is raised
    StoppedWithoutLine,
    // a run of more steps than 65,535
    BudgetTooLarge,
    // a line other than 2 to 31
    NoSuchLine,
    // a starting clock past the limit
    StartPastLimit,
}

impl From<LineRefusal> for Refusal {
    ghost from_gives = { λ line refusal. refusal ≡ Line line };

    fn from(line: LineRefusal) -> Refusal {
        Refusal::Line(line)
    }
}

// The refusal's number.
impl From<Refusal> for u8 {
    ghost from_gives = { λ refusal number. number ≡ refusal_number refusal };

    fn from(refusal: Refusal) -> u8 {
        match refusal {
            Refusal::Line(refusal) => u8::from(refusal),
            Refusal::NoEndRecord => 20,
            Refusal::BoardHalted => 30,
            Refusal::ClockPastLimit => 31,
            Refusal::StoppedWithoutLine => 32,
            Refusal::BudgetTooLarge => 33,
            Refusal::NoSuchLine => 34,
            Refusal::StartPastLimit => 35,
        }
    }
}

// A refused call hands back what it was given.
#[derive(Drop)]
pub struct Refused<T> {
    pub refusal: Refusal,
    pub back: T,
}
