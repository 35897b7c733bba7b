// The two cores.
ghost use Rattle.isa.specs.Model.{model_table, model_entry};
ghost use Rattle.isa.specs.Lawful.{model_lawful};
ghost use Rattle.std.proofs.Common.{rules};

use crate::core08::Core;
use crate::pages::places;
use crate::row::{Page, Row, row_on};

#[derive(Clone, Copy)]
pub enum Model {
    Cpu08,
    Hcs08,
}

impl Core for Model {
    ghost table = { model_table };

    ghost entry_figure = { model_entry };

    ghost rows = { model_lawful };

    ghost prefix = { Prim.search rules };

    ghost bounded = { Prim.search rules };

    ghost figure = { Prim.search rules };

    #[tactic(auto, using(crate::proofs::Tabulated::row_of_core))]
    fn row(&self, page: Page, opcode: u8) -> Option<Row> {
        row_on(*self, places(page)[usize::from(opcode)])
    }

    // The cores are closed: an arm each is plainer than a table.
    fn entry_cycles(&self) -> u8 {
        match self {
            Model::Cpu08 => 9,
            Model::Hcs08 => 11,
        }
    }
}
