// An empty board: made, and loading begun.
ghost use Rattle.std.specs.Prelude.{◌≡◌, false};
ghost use Rattle.board.specs.Empty.{made_as};

use crate::board::{Board, CLOCK_LIMIT};
use crate::refusal::{Refusal, Refused};
use crate::stages::{Empty, Loading};
use bus::traits::Bus;
use isa::core08::Core;

impl<B: Bus, C: Core> Board<B, C, Empty> {
    // Makes an empty board with a starting clock, or hands memory and core back.
    pub fn make(bus: B, core: C, clock: u64) -> Result<Board<B, C, Empty>, Refused<(B, C)>>
        ensures { result ≡ made_as bus core clock }
    {
        if clock > CLOCK_LIMIT {
            return Err(Refused {
                refusal: Refusal::StartPastLimit,
                back: (bus, core),
            });
        }
        Ok(Board {
            bus,
            core,
            clock,
            stage: Empty,
        })
    }

    // Begins to load an image.
    pub fn begin(self) -> Board<B, C, Loading>
        ensures { result ≡ record { bus = self.bus; core = self.core; clock = self.clock; stage = record { ended = false } } }
    {
        self.at(Loading { ended: false })
    }
}
