// A row and an order worked out, and what holds of every column.
ghost use Rattle.console.specs.Examples.{RowExample, OrderExample, FillsItsWidth, ReadsBack};

// There is nothing to run: the specifications compute to these characters and to this order.
pub fn row_example_holds()
    ensures row { RowExample }
    ensures order { OrderExample }
{}

// There is nothing to run: these hold of every number that a row can have.
pub fn column_laws_hold()
    ensures width { FillsItsWidth }
    ensures value { ReadsBack }
{}
