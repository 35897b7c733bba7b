// One instruction, from its opcode to what it leaves.
ghost use Rattle.std.specs.Prelude.{◌≡◌};
ghost use Rattle.access.specs.Access.{perform};
ghost use Rattle.machine.specs.Execute.{instruction, executes};

use crate::decode::decode;
use crate::operate::carry_out;
use access::fault::Fault;
use bus::traits::Bus;
use isa::core08::Core;
use state::live::Live;

// Executes the instruction at the program counter, and answers its cycles. A fault leaves what the machine holds as it was.
// `bus, core, live`: a board owns the three in fields of its own, and `carry_out` lends the bus with the registers alone to a
// `Processor`. A struct of the references would be made at each call and taken apart again there.
pub fn execute<B: Bus, C: Core>(bus: &mut B, core: &C, live: &mut Live) -> Result<u8, Fault>
    ensures { (result, live.new, B.cells bus.new) ≡ executes live.old (perform (instruction (C.table core.now) live.old) (B.cells bus.old)) }
{
    let decoded = decode(bus, core, live.registers.pc)?;
    carry_out(bus, decoded, live)
}
