// BRSET and BRCLR.
ghost use Rattle.operands.specs.Leaves.{Performs};
ghost use Rattle.flow.specs.Bits.{bit_tested};

use access::cells::read_cell;
use access::fault::Fault;
use bus::traits::Bus;
use effects::bits::branch_on;
use isa::operation::BitBranch;
use operands::address::Operand;
use operands::processor::Processor;

// Branches on a bit of the operand, which C then holds. `branch, operand`: see `Processor`.
pub fn branch_on_bit<B: Bus>(
    processor: &mut Processor<'_, B>,
    branch: BitBranch,
    operand: Operand,
) -> Result<(), Fault>
    ensures { Performs B.cells (bit_tested branch operand) processor.old result processor.new }
{
    let offset = read_cell(processor.bus, operand.behind())?;
    let byte = read_cell(processor.bus, operand.address)?;
    branch_on(branch, byte, offset, processor.registers);
    Ok(())
}
