// A loading board: it takes record lines until its image is closed.
ghost use Rattle.std.specs.Prelude.{◌≡◌};
ghost use Rattle.board.specs.Situation.{situation};
ghost use Rattle.board.specs.Loading.{line_given, closed_as};

use crate::board::Board;
use crate::refusal::{Refusal, Refused};
use crate::stages::{Loading, Ready};
use bus::traits::Bus;
use isa::core08::Core;
use srecord::load::take_line;

impl<B: Bus, C: Core> Board<B, C, Loading> {
    // Takes a record line. A refused one changes nothing.
    pub fn line(&mut self, line: &[u8]) -> Result<(), Refusal>
        ensures { (result, situation B.cells self.new) ≡ line_given (situation B.cells self.old) line.now }
    {
        take_line(&mut self.bus, &mut self.stage.ended, line)?;
        Ok(())
    }

    // Closes the image, once its end record was taken.
    pub fn close(self) -> Result<Board<B, C, Ready>, Refused<Board<B, C, Loading>>>
        ensures { result ≡ closed_as self }
    {
        if self.stage.ended {
            Ok(self.at(Ready))
        } else {
            Err(Refused {
                refusal: Refusal::NoEndRecord,
                back: self,
            })
        }
    }
}
