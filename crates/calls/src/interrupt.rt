// Interrupts: the frame on the stack, and the vector.
ghost use Rattle.std.specs.Prelude.{◌≡◌};
ghost use Rattle.access.specs.Access.{perform};
ghost use Rattle.operands.specs.Leaves.{Performs};
ghost use Rattle.calls.specs.Interrupt.{pushed_operands, pushed_frame, vectored, interrupted, swi};

use access::cells::store_cell;
use access::fault::Fault;
use access::words::{push_word, read_word};
use bus::traits::Bus;
use operands::processor::Processor;
use state::registers::Registers;

// Where the vector of SWI stands.
const SWI_VECTOR: u16 = 0xFFFC;

// Pushes X, A and the condition codes. `bus, registers`: here and in `push_frame` no register changes, so that these are no calls of a
// `Processor`.
fn push_operands<B: Bus>(bus: &mut B, sp: u16, registers: &Registers) -> Result<(), Fault>
    ensures { (result, B.cells bus.new) ≡ perform (pushed_operands sp registers.now) (B.cells bus.old) }
{
    store_cell(bus, sp, registers.x)?;
    store_cell(bus, sp.wrapping_sub(1), registers.a)?;
    store_cell(bus, sp.wrapping_sub(2), u8::from(registers.flags))
}

// Pushes the program counter, X, A and the condition codes.
fn push_frame<B: Bus>(bus: &mut B, registers: &Registers) -> Result<(), Fault>
    ensures { (result, B.cells bus.new) ≡ perform (pushed_frame registers.now) (B.cells bus.old) }
{
    push_word(bus, registers.sp, registers.pc)?;
    push_operands(bus, registers.sp.wrapping_sub(2), registers)
}

// Goes on at a vector, with the frame on the stack and I set.
fn go_to_vector<B: Bus>(processor: &mut Processor<'_, B>, vector: u16) -> Result<(), Fault>
    ensures { Performs B.cells (vectored vector) processor.old result processor.new }
{
    processor.registers.pc = read_word(processor.bus, vector)?;
    processor.registers.sp = processor.registers.sp.wrapping_sub(5);
    processor.registers.flags.i = true;
    Ok(())
}

// Pushes the frame, and goes on at a vector with I set.
pub fn interrupt<B: Bus>(processor: &mut Processor<'_, B>, vector: u16) -> Result<(), Fault>
    ensures { Performs B.cells (interrupted vector) processor.old result processor.new }
{
    push_frame(processor.bus, processor.registers)?;
    go_to_vector(processor, vector)
}

// SWI.
pub fn software_interrupt<B: Bus>(processor: &mut Processor<'_, B>) -> Result<(), Fault>
    ensures { Performs B.cells swi processor.old result processor.new }
{
    interrupt(processor, SWI_VECTOR)
}
