// MOV.
ghost use Rattle.operands.specs.Leaves.{Performs};
ghost use Rattle.rewrites.specs.Moves.{moved_to_direct, moved_immediate, moved_to_index, moved_from_index, byte_moved};

use access::cells::read_cell;
use access::fault::Fault;
use bus::traits::Bus;
use isa::row::Mode;
use operands::address::Operand;
use operands::processor::Processor;

// Moves the byte at `from` to the direct address that stands at `at`.
fn move_to_direct<B: Bus>(processor: &mut Processor<'_, B>, at: u16, from: u16) -> Result<(), Fault>
    ensures { Performs B.cells (moved_to_direct at from) processor.old result processor.new }
{
    let target = read_cell(processor.bus, at)?;
    let byte = read_cell(processor.bus, from)?;
    processor.store_and_test(u16::from(target), byte)
}

// The byte after the opcode to a direct address. It reads the byte before the address, since an instruction's bytes are read in order:
// the other way round than `move_to_direct`.
fn move_immediate<B: Bus>(processor: &mut Processor<'_, B>, operand: Operand) -> Result<(), Fault>
    ensures { Performs B.cells (moved_immediate operand) processor.old result processor.new }
{
    let byte = read_cell(processor.bus, operand.address)?;
    let target = read_cell(processor.bus, operand.bytes.wrapping_add(1))?;
    processor.store_and_test(u16::from(target), byte)
}

// From a direct address to H:X, which goes on by 1 from where the byte was stored, as in `move_from_index` from where it was read:
// `go_on` goes by H:X itself, and after the match it would be asked for the two modes too that do not go on.
fn move_to_index<B: Bus>(processor: &mut Processor<'_, B>, operand: Operand) -> Result<(), Fault>
    ensures { Performs B.cells (moved_to_index operand) processor.old result processor.new }
{
    let byte = read_cell(processor.bus, operand.address)?;
    let target = processor.registers.hx();
    processor.store_and_test(target, byte)?;
    processor.registers.put_hx(target.wrapping_add(1));
    Ok(())
}

// From H:X, which goes on by 1 as above, to a direct address.
fn move_from_index<B: Bus>(processor: &mut Processor<'_, B>, operand: Operand) -> Result<(), Fault>
    ensures { Performs B.cells (moved_from_index operand) processor.old result processor.new }
{
    move_to_direct(processor, operand.bytes, operand.address)?;
    processor.registers.put_hx(operand.address.wrapping_add(1));
    Ok(())
}

// Moves a byte. Four modes are those of MOV, and the other fourteen have no such instruction: a table would say so fourteen times,
// and hand out functions.
pub fn move_byte<B: Bus>(processor: &mut Processor<'_, B>, operand: Operand) -> Result<(), Fault>
    ensures { Performs B.cells (byte_moved operand) processor.old result processor.new }
{
    match operand.mode {
        Mode::DirectDirect => {
            move_to_direct(processor, operand.bytes.wrapping_add(1), operand.address)
        }
        Mode::DirectIndexedPlus => move_to_index(processor, operand),
        Mode::ImmediateDirect => move_immediate(processor, operand),
        Mode::IndexedPlusDirect => move_from_index(processor, operand),
        _ => Err(Fault::NoInstruction),
    }
}
