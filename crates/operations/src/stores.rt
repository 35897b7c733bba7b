// STA and STX.
ghost use Rattle.std.specs.Prelude.{◌≡◌};
ghost use Rattle.operands.specs.Leaves.{Performs};
ghost use Rattle.operations.specs.Stores.{stored_byte, register_stored};

use access::fault::Fault;
use bus::traits::Bus;
use isa::operation::RegisterStore;
use operands::processor::Processor;
use state::registers::Registers;

// The byte that is stored. The kinds are closed: an arm each is plainer than a table, and a function over the register would need these
// arms to know which one it is.
fn stored_byte(operation: RegisterStore, registers: &Registers) -> u8
    ensures { result ≡ stored_byte operation registers.now }
{
    match operation {
        RegisterStore::Sta => registers.a,
        RegisterStore::Stx => registers.x,
    }
}

// Stores the register at the operand's address, and tests it. `operation, address`: see `Processor`.
pub fn store_register<B: Bus>(
    processor: &mut Processor<'_, B>,
    operation: RegisterStore,
    address: u16,
) -> Result<(), Fault>
    ensures { Performs B.cells (register_stored operation address) processor.old result processor.new }
{
    let byte = stored_byte(operation, processor.registers);
    processor.store_and_test(address, byte)
}
