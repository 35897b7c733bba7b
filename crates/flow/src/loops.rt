// DBNZ.
ghost use Rattle.std.specs.Prelude.{◌≡◌};
ghost use Rattle.access.specs.Access.{perform};
ghost use Rattle.operands.specs.Leaves.{Performs};
ghost use Rattle.flow.specs.Loops.{less, until_zero, cell_counted_down, decremented};

use access::cells::{read_cell, store_cell};
use access::fault::Fault;
use bus::traits::Bus;
use effects::branch::go_by;
use operands::address::{Home, Operand};
use operands::processor::Processor;
use state::registers::Registers;

// Branches where something is left.
fn branch_until_zero(left: u8, offset: u8, registers: &mut Registers)
    ensures { registers.new ≡ until_zero left offset registers.old }
{
    if left != 0 {
        go_by(offset, registers);
    }
}

// Takes 1 from a byte, and answers what is left.
fn count_down(byte: &mut u8) -> u8
    ensures left { result ≡ less byte.old }
    ensures byte { byte.new ≡ less byte.old }
{
    *byte = byte.wrapping_sub(1);
    *byte
}

// Takes 1 from the byte at an address, and answers what is left.
fn decrement_cell<B: Bus>(bus: &mut B, address: u16) -> Result<u8, Fault>
    ensures { (result, B.cells bus.new) ≡ perform (cell_counted_down address) (B.cells bus.old) }
{
    let left = read_cell(bus, address)?.wrapping_sub(1);
    store_cell(bus, address, left)?;
    Ok(left)
}

// Takes 1 from the operand, and branches where something is left. The kinds are closed: an arm each is plainer than a table, and the
// arms of A and X are what tells the two fields apart.
pub fn decrement_and_branch<B: Bus>(
    processor: &mut Processor<'_, B>,
    operand: Operand,
) -> Result<(), Fault>
    ensures { Performs B.cells (decremented operand) processor.old result processor.new }
{
    let offset = read_cell(processor.bus, operand.behind())?;
    let left = match operand.home() {
        Home::Accumulator => count_down(&mut processor.registers.a),
        Home::Index => count_down(&mut processor.registers.x),
        Home::Memory => decrement_cell(processor.bus, operand.address)?,
    };
    branch_until_zero(left, offset, processor.registers);
    Ok(())
}
