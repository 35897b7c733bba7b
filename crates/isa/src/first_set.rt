// The instructions without an operand in memory, a call or the stack.
ghost use Rattle.std.specs.Prelude.{◌≡◌};
ghost use Rattle.isa.specs.FirstSet.{in_first_set, first_set_of, SameRows};
ghost use Rattle.isa.specs.FirstLaws.{first_set_lawful};
ghost use Rattle.isa.specs.FirstMaps.{first_cpu08_table, first_hcs08_table};
ghost use Rattle.isa.specs.Tables.{cpu08_table, hcs08_table};
ghost use Rattle.std.proofs.Common.{rules};

use crate::core08::Core;
use crate::operation::Operation;
use crate::row::{Mode, Page, Row};

// Whether an instruction is of the first set. The groups are closed: arms that name them all are plainer than a table. Of the modes the
// first set has one or two: a match with an arm each would name the others. One arm for `true` and one for `false` would take a line for
// each group, as the formatter sets them.
fn is_in_first_set(operation: Operation, mode: Mode) -> bool
    ensures { result ≡ in_first_set operation mode }
{
    match operation {
        Operation::Branch(_) | Operation::Displace(_) => true,
        Operation::Register(_) | Operation::Rest(_) => true,
        Operation::Combine(_) | Operation::Word(_) => matches!(mode, Mode::Immediate),
        Operation::Modify(_) => matches!(mode, Mode::InherentA | Mode::InherentX),
        Operation::BranchOnBit(_) | Operation::ChangeBit(_) | Operation::Store(_) => false,
        Operation::CompareAndBranch(_) | Operation::DecrementAndBranch | Operation::Move => false,
        Operation::Transfer(_) | Operation::GoBack(_) => false,
        Operation::SoftwareInterrupt | Operation::Stack(_) => false,
    }
}

// A core that has the first set of its instructions alone; every other opcode is no instruction.
#[derive(Clone, Copy)]
pub struct FirstSet<C>(pub C);

impl<C: Core> Core for FirstSet<C> {
    ghost table = { λ s. first_set_of (C.table s.0) };

    ghost entry_figure = { λ s. C.entry_figure s.0 };

    ghost rows = { λ s. first_set_lawful (C.table s.0) (C.rows s.0) };

    ghost prefix = { Prim.search rules };

    ghost bounded = { Prim.search rules };

    ghost figure = { λ s. C.figure s.0 };

    fn row(&self, page: Page, opcode: u8) -> Option<Row> {
        let row = self.0.row(page, opcode)?;
        is_in_first_set(row.operation, row.mode).then_some(row)
    }

    fn entry_cycles(&self) -> u8 {
        self.0.entry_cycles()
    }
}

// There is nothing to run: the first set of each core's table is the table of its map, at all 512 places.
#[tactic(auto, using(crate::specs::FirstLaws::cpu08_first, crate::specs::FirstLaws::hcs08_first))]
pub fn first_set_is_mapped()
    ensures cpu08 { SameRows (first_set_of cpu08_table) first_cpu08_table }
    ensures hcs08 { SameRows (first_set_of hcs08_table) first_hcs08_table }
{}
