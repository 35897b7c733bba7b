// A byte read, changed and put back.
ghost use Rattle.std.specs.Prelude.{◌≡◌};
ghost use Rattle.access.specs.Access.{perform};
ghost use Rattle.operands.specs.Leaves.{Performs};
ghost use Rattle.rewrites.specs.Modify.{cell_read, cell_stored, cell_modified, operand_modified};

use access::cells::{read_cell, store_cell};
use access::fault::Fault;
use bus::traits::Bus;
use effects::modify::modify;
use isa::operation::ReadModifyWrite;
use operands::address::{Home, Operand};
use operands::processor::Processor;
use state::registers::Registers;

// The byte in memory that is changed. CLR alone reads nothing: a match with an arm each would name the ten others. `operation, address`
// here and below are what `modify_operand` has of its two parameters where the operand is in memory.
fn read_operand<B: Bus>(bus: &mut B, operation: ReadModifyWrite, address: u16) -> Result<u8, Fault>
    ensures { (result, B.cells bus.new) ≡ perform (cell_read operation address) (B.cells bus.old) }
{
    if matches!(operation, ReadModifyWrite::Clr) {
        return Ok(0);
    }
    read_cell(bus, address)
}

// Puts the byte in memory back. TST alone stores nothing: a match with an arm each would name the ten others.
fn store_operand<B: Bus>(
    bus: &mut B,
    operation: ReadModifyWrite,
    address: u16,
    byte: u8,
) -> Result<(), Fault>
    ensures { (result, B.cells bus.new) ≡ perform (cell_stored operation address byte) (B.cells bus.old) }
{
    if matches!(operation, ReadModifyWrite::Tst) {
        return Ok(());
    }
    store_cell(bus, address, byte)
}

// Changes the byte at an address. The flags change once it is stored.
fn modify_cell<B: Bus>(
    processor: &mut Processor<'_, B>,
    operation: ReadModifyWrite,
    address: u16,
) -> Result<(), Fault>
    ensures { Performs B.cells (cell_modified operation address) processor.old result processor.new }
{
    let byte = read_operand(processor.bus, operation, address)?;
    let (byte, flags) = modify(operation, byte, processor.registers.flags);
    store_operand(processor.bus, operation, address, byte)?;
    processor.registers.flags = flags;
    Ok(())
}

// Changes A, X or the operand in memory. The kinds are closed: an arm each is plainer than a table. Tried with the register lent by the
// match and one assignment below it: the borrow checker does not cover a reference that is one of two borrows. The dispatcher has the
// operation and its operand from different places: a struct of both would be made and taken apart in one call.
pub fn modify_operand<B: Bus>(
    processor: &mut Processor<'_, B>,
    operation: ReadModifyWrite,
    operand: Operand,
) -> Result<(), Fault>
    ensures { Performs B.cells (operand_modified operation operand) processor.old result processor.new }
{
    let Registers { a, x, flags, .. } = *processor.registers;
    match operand.home() {
        Home::Accumulator => {
            (processor.registers.a, processor.registers.flags) = modify(operation, a, flags)
        }
        Home::Index => {
            (processor.registers.x, processor.registers.flags) = modify(operation, x, flags)
        }
        Home::Memory => modify_cell(processor, operation, operand.address)?,
    }
    Ok(())
}
