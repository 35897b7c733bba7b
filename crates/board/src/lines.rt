// The interrupt lines of a live board.
ghost use Rattle.std.specs.Prelude.{◌≡◌, if◌then◌else◌, Ok, Err};
ghost use Rattle.state.specs.Lines.{with_line_raised, with_line_dropped};
ghost use Rattle.board.specs.Lines.{line_exists, line_set};
ghost use Rattle.board.specs.declared.refusal.Refusal.TheVariants.{NoSuchLine};
ghost use Rattle.board.specs.Situation.{situation};

use crate::board::Board;
use crate::refusal::Refusal;
use bus::traits::Bus;
use isa::core08::Core;
use state::lines::{with_dropped, with_raised};
use state::live::Live;

// Refuses a line that no board has.
fn require_line(line: u32) -> Result<(), Refusal>
    ensures { result ≡ (if line_exists line then Ok tt else Err NoSuchLine) }
{
    match line {
        2..=31 => Ok(()),
        _ => Err(Refusal::NoSuchLine),
    }
}

// Raising and dropping are two calls by a rule of the project, which names each call of a board. They are three lines each, alike but
// for the one that changes the set.
impl<B: Bus, C: Core> Board<B, C, Live> {
    // Raises a line from 2 to 31.
    pub fn raise_line(&mut self, line: u32) -> Result<(), Refusal>
        ensures { (result, situation B.cells self.new) ≡ line_set with_line_raised line (situation B.cells self.old) }
    {
        require_line(line)?;
        self.stage.lines = with_raised(self.stage.lines, line);
        Ok(())
    }

    // Drops a line from 2 to 31.
    pub fn drop_line(&mut self, line: u32) -> Result<(), Refusal>
        ensures { (result, situation B.cells self.new) ≡ line_set with_line_dropped line (situation B.cells self.old) }
    {
        require_line(line)?;
        self.stage.lines = with_dropped(self.stage.lines, line);
        Ok(())
    }
}
