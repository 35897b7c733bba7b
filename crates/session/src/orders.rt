// Orders given to a live board.
ghost use Rattle.std.specs.Prelude.{◌≡◌};
ghost use Rattle.board.specs.Situation.{situation};
ghost use Rattle.console.specs.Order.{order_of};
ghost use Rattle.console.specs.Row.{row_bytes};
ghost use Rattle.session.specs.Orders.{obeyed, order_line};

use crate::declined::Declined;
use crate::line::Line;
use crate::rows::{Ran, register_row};
use board::board::Board;
use bus::traits::Bus;
use console::order::Order;
use console::row::RegisterRow;
use isa::core08::Core;
use state::live::Live;

// Carries out the order that a line is. An arm an order, and none takes the rest: a run answers numbers and the other two nothing, so
// that a table of the three calls would first have to bring them to one type.
fn obey<B: Bus, C: Core>(board: &mut Board<B, C, Live>, line: &[u8]) -> Result<Ran, Declined>
    ensures { (result, situation B.cells board.new) ≡ obeyed C.table C.entry_figure (order_of line.now) (situation B.cells board.old) }
{
    match Order::try_from(line)? {
        Order::Run(budget) => {
            // the one place where the three are named: a `From` would be longer
            let (steps, cycles, ended) = board.run(budget)?;
            return Ok(Ran {
                steps,
                cycles,
                ended,
            });
        }
        Order::Raise(line) => board.raise_line(line)?,
        Order::Drop(line) => board.drop_line(line)?,
    }
    Ok(Ran::default())
}

// Takes a line, and gives its row.
pub(crate) fn take_order<B: Bus, C: Core>(
    board: &mut Board<B, C, Live>,
    line: Line<'_>,
) -> RegisterRow
    ensures { (row_bytes result, situation B.cells board.new) ≡ order_line C.table C.entry_figure line.entry.number line.entry.text.now (situation B.cells board.old) }
{
    let obeyed = obey(board, line.text);
    register_row(line.number, obeyed, board.registers())
}
