// LDHX, CPHX and STHX.
ghost use Rattle.operands.specs.Leaves.{Performs};
ghost use Rattle.operations.specs.Words.{worded};

use access::fault::Fault;
use access::words::{read_word, store_word};
use bus::traits::Bus;
use effects::index::{compare_index, load_index, test_index};
use isa::operation::WordOperation;
use operands::processor::Processor;

// Each operation on H:X and a word in memory. The kinds are closed: an arm each is plainer than a table. LDHX and CPHX read the word
// alike: one arm for both would match the operation again to know what to do with it. `operation, address`: see `Processor`.
pub fn word_operation<B: Bus>(
    processor: &mut Processor<'_, B>,
    operation: WordOperation,
    address: u16,
) -> Result<(), Fault>
    ensures { Performs B.cells (worded operation address) processor.old result processor.new }
{
    match operation {
        WordOperation::Ldhx => {
            load_index(read_word(processor.bus, address)?, processor.registers)
        }
        WordOperation::Cphx => {
            compare_index(read_word(processor.bus, address)?, processor.registers)
        }
        WordOperation::Sthx => {
            store_word(processor.bus, address, processor.registers.hx())?;
            test_index(processor.registers);
        }
    }
    Ok(())
}
