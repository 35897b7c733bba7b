// Runs of a live board.
ghost use Rattle.std.specs.Prelude.{◌≡◌, ◌+◌, ◌≤◌, IfOk};
ghost use Rattle.board.specs.Situation.{situation};
ghost use Rattle.board.specs.Run.{run_taken, run_given, end_number};

use crate::board::Board;
use crate::refusal::Refusal;
use bus::traits::Bus;
use isa::core08::Core;
use state::live::Live;

// The most steps of a run.
const MOST_STEPS: u32 = 65_535;

// The number of the refusal that ended a run; 0 where its budget was spent. A run's answer is numbers by a rule of the project.
fn end_number(ended: Option<Refusal>) -> u8
    ensures { result ≡ end_number ended }
{
    ended.map_or(0, u8::from)
}

impl<B: Bus, C: Core> Board<B, C, Live> {
    // Steps until the budget is spent or a step is refused. Answers the steps taken, their cycles and the number of the refusal:
    // a run's answer is three numbers in a tuple by a rule of the project.
    pub fn run(&mut self, budget: u32) -> Result<(u32, u32, u8), Refusal>
        ensures meaning { (result, situation B.cells self.new) ≡ run_given C.table C.entry_figure budget (situation B.cells self.old) }
        ensures clock_is_start_plus_cycles { IfOk result (λ ran. self.new.clock ≡ self.old.clock + ran.1) }
        ensures steps_within_budget { IfOk result (λ ran. ran.0 ≤ budget) }
    {
        if budget > MOST_STEPS {
            return Err(Refusal::BudgetTooLarge);
        }
        Ok(self.run_steps(budget))
    }

    // The clock tells the cycles. Rules of the project: the answer is three numbers in a tuple, and the loop breaks with the refusal that
    // ended it.
    fn run_steps(&mut self, budget: u32) -> (u32, u32, u8)
        requires { budget ≤ 65535 }
        ensures meaning { (result, situation B.cells self.new) ≡ run_taken C.table C.entry_figure budget (situation B.cells self.old) }
        ensures clock_is_start_plus_cycles { self.new.clock ≡ self.old.clock + result.1 }
        ensures steps_within_budget { result.0 ≤ budget }
    {
        let start = self.clock;
        let mut steps = 0;
        let ended = loop {
            if steps == budget {
                break None;
            }
            match self.step() {
                Ok(_) => steps += 1,
                Err(refusal) => break Some(refusal),
            }
        };
        (steps, (self.clock - start) as u32, end_number(ended))
    }
}
