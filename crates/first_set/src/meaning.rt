// What the first set means: the machine of all instructions gives it no other meaning.
ghost use Rattle.isa.specs.FirstSet.{first_set_of};
ghost use Rattle.isa.specs.Law.{Table};
ghost use Rattle.first_set.specs.Same.{SameOperations, SameInstructions, SameEntry, Lawful};

// There is nothing to run: the operations of the first set are carried out alike.
fn operations_mean()
    ensures { SameOperations }
{}

// There is nothing to run: an instruction of the first set, by any table where its rows are lawful, and the entry of a request
// mean to the machine of all instructions what they mean without the others.
pub fn first_set_means()
    ensures instructions { (table : Table) → Lawful (first_set_of table) → SameInstructions (first_set_of table) }
    ensures entry { SameEntry }
{
    operations_mean();
}
