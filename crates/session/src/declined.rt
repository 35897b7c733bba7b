// Why a line of a session is not obeyed.
ghost use Rattle.std.specs.Prelude.{◌≡◌};
ghost use Rattle.session.specs.Declined.{declined_number};

use board::refusal::Refusal;
use console::understood::NotUnderstood;

#[derive(Clone, Copy)]
pub enum Declined {
    // neither an order nor, on the first line, a core
    NotUnderstood,
    ByBoard(Refusal),
}

impl From<NotUnderstood> for Declined {
    ghost use Rattle.session.specs.declared.declined.Declined.{Declined};

    ghost from_gives = { λ _ declined. declined ≡ Declined.NotUnderstood };

    fn from(_line: NotUnderstood) -> Declined {
        Declined::NotUnderstood
    }
}

impl From<Refusal> for Declined {
    ghost use Rattle.session.specs.declared.declined.Declined.{Declined};

    ghost from_gives = { λ refusal declined. declined ≡ Declined.ByBoard refusal };

    fn from(refusal: Refusal) -> Declined {
        Declined::ByBoard(refusal)
    }
}

// The number in the row.
impl From<Declined> for u8 {
    ghost from_gives = { λ declined number. number ≡ declined_number declined };

    fn from(declined: Declined) -> u8 {
        match declined {
            Declined::NotUnderstood => 36,
            Declined::ByBoard(refusal) => u8::from(refusal),
        }
    }
}
