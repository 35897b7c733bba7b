// JMP, JSR and BSR.
ghost use Rattle.operands.specs.Leaves.{Performs};
ghost use Rattle.calls.specs.Jumps.{called, jumped};

use access::fault::Fault;
use access::words::push_word;
use bus::traits::Bus;
use isa::operation::Jump;
use operands::processor::Processor;

// Pushes the address of the next instruction, and goes to a target.
fn call<B: Bus>(processor: &mut Processor<'_, B>, target: u16) -> Result<(), Fault>
    ensures { Performs B.cells (called target) processor.old result processor.new }
{
    push_word(
        processor.bus,
        processor.registers.sp,
        processor.registers.pc,
    )?;
    processor.registers.sp = processor.registers.sp.wrapping_sub(2);
    processor.registers.pc = target;
    Ok(())
}

// JMP goes to the target, JSR and BSR call it. The kinds are closed: arms that name them all are plainer than a table.
// `jump, target`: see `Processor`.
pub fn transfer<B: Bus>(
    processor: &mut Processor<'_, B>,
    jump: Jump,
    target: u16,
) -> Result<(), Fault>
    ensures { Performs B.cells (jumped jump target) processor.old result processor.new }
{
    match jump {
        Jump::Jmp => processor.registers.pc = target,
        Jump::Jsr | Jump::Bsr => call(processor, target)?,
    }
    Ok(())
}
