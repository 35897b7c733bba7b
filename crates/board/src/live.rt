// A live board takes steps.
ghost use Rattle.std.specs.Prelude.{◌≡◌, ◌≤◌, Ok};
ghost use Rattle.board.specs.Situation.{clock_limit, situation};
ghost use Rattle.board.specs.Live.{counted, step_taken};

use crate::board::{Board, CLOCK_LIMIT};
use crate::refusal::Refusal;
use access::fault::Fault;
use bus::traits::Bus;
use isa::core08::Core;
use machine::execute::execute;
use machine::request::enter;
use state::live::Live;
use state::standing::Standing;

impl<B: Bus, C: Core> Board<B, C, Live> {
    // Takes a step, and answers its cycles. By a rule of the project it matches the standing together with the pending lines.
    pub fn step(&mut self) -> Result<u8, Refusal>
        ensures { (result, situation B.cells self.new) ≡ step_taken C.table C.entry_figure (situation B.cells self.old) }
    {
        let masked = self.stage.registers.flags.i;
        let cycles = match (self.stage.standing, self.stage.lines != 0, masked) {
            (Standing::Halted, _, _) => return Err(Refusal::BoardHalted),
            _ if self.clock > CLOCK_LIMIT => return Err(Refusal::ClockPastLimit),
            (Standing::Stopped, false, _) => return Err(Refusal::StoppedWithoutLine),
            (Standing::Waiting | Standing::Stopped, true, _) | (Standing::Running, true, false) => {
                enter(&mut self.bus, &self.core, &mut self.stage)
            }
            (Standing::Waiting, false, _) => Ok(1),
            (Standing::Running, _, _) => execute(&mut self.bus, &self.core, &mut self.stage),
        };
        Ok(self.count(cycles))
    }

    // Puts the cycles of a step on the clock. At a fault the board halts, at 0 cycles.
    fn count(&mut self, cycles: Result<u8, Fault>) -> u8
        requires { self.old.clock ≤ clock_limit }
        ensures { (Ok result, situation B.cells self.new) ≡ counted (situation B.cells self.old) cycles }
    {
        let Ok(cycles) = cycles else {
            self.stage.standing = Standing::Halted;
            return 0;
        };
        self.clock += u64::from(cycles);
        cycles
    }
}
