// A session takes record lines until its image has ended, and orders from then on.
ghost use Rattle.std.specs.Prelude.{◌≡◌};
ghost use Rattle.board.specs.Situation.{situation};
ghost use Rattle.session.specs.Phase.{shown, record_line, line_said, closing};
ghost use Rattle.session.specs.Rows.{printed_row};

use crate::line::Line;
use crate::orders::take_order;
use crate::rows::blank_row;
use board::board::Board;
use board::stages::Loading;
use bus::traits::Bus;
use console::row::RegisterRow;
use isa::core08::Core;
use state::live::Live;

#[derive(Drop)]
pub enum Phase<B, C> {
    Records(Board<B, C, Loading>),
    Orders(Board<B, C, Live>),
}

// Closes and resets a board whose image has ended.
fn close<B: Bus, C: Core>(board: Board<B, C, Loading>) -> Phase<B, C>
    ensures { shown B.cells result ≡ closing (situation B.cells board) }
{
    match board.close() {
        Ok(ready) => Phase::Orders(ready.reset()),
        Err(refused) => Phase::Records(refused.back),
    }
}

// Takes a record line; a refused one gives its row.
fn take_record<B: Bus, C: Core>(
    mut board: Board<B, C, Loading>,
    line: Line<'_>,
) -> (Phase<B, C>, Option<RegisterRow>)
    ensures { (printed_row result.1, shown B.cells result.0) ≡ record_line line.entry.number line.entry.text.now (situation B.cells board) }
{
    match board.line(line.text) {
        Ok(()) => (close(board), None),
        Err(refusal) => {
            let row = blank_row(line.number, refusal.into());
            (Phase::Records(board), Some(row))
        }
    }
}

impl<B: Bus, C: Core> Phase<B, C> {
    // Takes a line of the session, and gives the row that is printed of it. An arm a phase, and none takes the rest: each owns a board of
    // its own type, so that no table could hold the two ways to go on.
    pub(crate) fn take_line(self, line: Line<'_>) -> (Phase<B, C>, Option<RegisterRow>)
        ensures { (printed_row result.1, shown B.cells result.0) ≡ line_said C.table C.entry_figure line.entry.number line.entry.text.now (shown B.cells self) }
    {
        match self {
            Phase::Records(board) => take_record(board, line),
            Phase::Orders(mut board) => {
                let row = take_order(&mut board, line);
                (Phase::Orders(board), Some(row))
            }
        }
    }
}
