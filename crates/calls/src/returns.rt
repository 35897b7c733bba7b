// RTS and RTI.
ghost use Rattle.std.specs.Prelude.{◌≡◌};
ghost use Rattle.access.specs.Access.{perform};
ghost use Rattle.operands.specs.Leaves.{Performs};
ghost use Rattle.calls.specs.Returns.{from_subroutine, frame_read, from_interrupt, returned};

use access::cells::read_cell;
use access::fault::Fault;
use access::words::read_word;
use bus::traits::Bus;
use effects::frame::{Frame, restore};
use isa::operation::Return;
use operands::processor::Processor;

// Pulls the program counter.
fn return_from_subroutine<B: Bus>(processor: &mut Processor<'_, B>) -> Result<(), Fault>
    ensures { Performs B.cells from_subroutine processor.old result processor.new }
{
    let sp = processor.registers.sp;
    processor.registers.pc = read_word(processor.bus, sp.wrapping_add(1))?;
    processor.registers.sp = sp.wrapping_add(2);
    Ok(())
}

// Reads the frame above a place of the stack, from the condition codes up.
fn read_frame<B: Bus>(bus: &mut B, sp: u16) -> Result<Frame, Fault>
    ensures { (result, B.cells bus.new) ≡ perform (frame_read sp) (B.cells bus.old) }
{
    let codes = read_cell(bus, sp.wrapping_add(1))?;
    let a = read_cell(bus, sp.wrapping_add(2))?;
    let x = read_cell(bus, sp.wrapping_add(3))?;
    let pc = read_word(bus, sp.wrapping_add(4))?;
    Ok(Frame { codes, a, x, pc })
}

// Pulls the condition codes, A, X and the program counter.
fn return_from_interrupt<B: Bus>(processor: &mut Processor<'_, B>) -> Result<(), Fault>
    ensures { Performs B.cells from_interrupt processor.old result processor.new }
{
    let frame = read_frame(processor.bus, processor.registers.sp)?;
    restore(frame, processor.registers);
    Ok(())
}

// Goes back from a subroutine or an interrupt. The kinds are closed: an arm each is plainer than a table.
pub fn go_back<B: Bus>(processor: &mut Processor<'_, B>, way: Return) -> Result<(), Fault>
    ensures { Performs B.cells (returned way) processor.old result processor.new }
{
    match way {
        Return::Rts => return_from_subroutine(processor),
        Return::Rti => return_from_interrupt(processor),
    }
}
