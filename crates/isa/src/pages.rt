// The two opcode pages as they are written down.
ghost use Rattle.std.specs.Prelude.{◌≡◌};
ghost use Rattle.isa.specs.Row.{rows_on, listed, RowsOf};
ghost use Rattle.isa.specs.Tables.{cpu08_table, hcs08_table};
ghost use Rattle.isa.specs.declared.model.Model.TheVariants.{Cpu08, Hcs08};
ghost use Rattle.isa.specs.declared.row.Page.TheVariants.{First};

use crate::row::{Page, Place};
use crate::{first_page, second_page};

// The first page holds the rows of both cores' tables, at every opcode. It has a function of its own because in the arm of `places` the
// search gave up at one of its limits on these 256 rows; on the second page, which is mostly blank, it does not.
fn first_places() -> &'static [Place; 256]
    ensures cpu08 { rows_on Cpu08 result.now ≡ listed (cpu08_table First) }
    ensures hcs08 { rows_on Hcs08 result.now ≡ listed (hcs08_table First) }
{
    &first_page::PLACES
}

// The places of a page. Over both pages they are, at all 512 places of each core, its opcode map with the operand bytes and its column
// of the timing table. The pages are closed: an arm each is plainer than a table.
pub fn places(page: Page) -> &'static [Place; 256]
    ensures cpu08 { RowsOf Cpu08 page result.now }
    ensures hcs08 { RowsOf Hcs08 page result.now }
{
    match page {
        Page::First => first_places(),
        Page::Second => &second_page::PLACES,
    }
}
