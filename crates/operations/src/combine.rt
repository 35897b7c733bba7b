// A register with an operand byte.
ghost use Rattle.operands.specs.Leaves.{Performs};
ghost use Rattle.operations.specs.Combine.{operand_combined, pointer_displaced};

use access::cells::read_cell;
use access::fault::Fault;
use bus::traits::Bus;
use effects::combine::combine;
use effects::pointers::displace;
use isa::operation::{Pointer, RegisterMemory};
use operands::processor::Processor;

// SUB, CMP, SBC, CPX, AND, BIT, LDA, EOR, ADC, ORA, ADD and LDX. `operation, address`: see `Processor`.
pub fn combine_operand<B: Bus>(
    processor: &mut Processor<'_, B>,
    operation: RegisterMemory,
    address: u16,
) -> Result<(), Fault>
    ensures { Performs B.cells (operand_combined operation address) processor.old result processor.new }
{
    let byte = read_cell(processor.bus, address)?;
    combine(operation, byte, processor.registers);
    Ok(())
}

// AIS and AIX. It shares with the function above the read, which is one call, and the answer: a function of both would take the
// line between them as a closure, and its contract would have to say what the closure does.
pub fn displace_pointer<B: Bus>(
    processor: &mut Processor<'_, B>,
    pointer: Pointer,
    address: u16,
) -> Result<(), Fault>
    ensures { Performs B.cells (pointer_displaced pointer address) processor.old result processor.new }
{
    let offset = read_cell(processor.bus, address)?;
    displace(pointer, offset, processor.registers);
    Ok(())
}
