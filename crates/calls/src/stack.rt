// Pushes and pulls.
ghost use Rattle.operands.specs.Leaves.{Performs};
ghost use Rattle.calls.specs.Stack.{pushed, Pulls, stacked};

use access::cells::{read_cell, store_cell};
use access::fault::Fault;
use bus::traits::Bus;
use isa::operation::StackOperation;
use operands::processor::Processor;

// Pushes a byte.
fn push<B: Bus>(processor: &mut Processor<'_, B>, byte: u8) -> Result<(), Fault>
    ensures { Performs B.cells (pushed byte) processor.old result processor.new }
{
    store_cell(processor.bus, processor.registers.sp, byte)?;
    processor.registers.sp = processor.registers.sp.wrapping_sub(1);
    Ok(())
}

// Pulls a byte.
fn pull<B: Bus>(processor: &mut Processor<'_, B>) -> Result<u8, Fault>
    ensures { Pulls B.cells processor.old result processor.new }
{
    let top = processor.registers.sp.wrapping_add(1);
    let byte = read_cell(processor.bus, top)?;
    processor.registers.sp = top;
    Ok(byte)
}

// Pushes a register, or pulls it. No flag changes. The kinds are closed: an arm each is plainer than a table, and a function over the
// register would need these arms to know which one it is.
pub fn use_stack<B: Bus>(
    processor: &mut Processor<'_, B>,
    operation: StackOperation,
) -> Result<(), Fault>
    ensures { Performs B.cells (stacked operation) processor.old result processor.new }
{
    match operation {
        StackOperation::Psha => push(processor, processor.registers.a)?,
        StackOperation::Pshx => push(processor, processor.registers.x)?,
        StackOperation::Pshh => push(processor, processor.registers.h)?,
        StackOperation::Pula => processor.registers.a = pull(processor)?,
        StackOperation::Pulx => processor.registers.x = pull(processor)?,
        StackOperation::Pulh => processor.registers.h = pull(processor)?,
    }
    Ok(())
}
