// A decoded instruction carried out.
ghost use Rattle.std.specs.Prelude.{◌≡◌};
ghost use Rattle.access.specs.Access.{perform};
ghost use Rattle.operands.specs.Leaves.{Performs};
ghost use Rattle.machine.specs.Act.{stands};
ghost use Rattle.machine.specs.Execute.{moved_on, operated, carried_out, executes};

use crate::act::act;
use crate::decode::Decoded;
use access::fault::Fault;
use bus::traits::Bus;
use operands::address::{Operand, operand_address};
use operands::processor::Processor;
use state::live::Live;
use state::registers::Registers;
use state::standing::Standing;

// Finds the operand, and does the operation. The program counter is already at the next instruction. `standing, lines` go on to
// `act`, where a struct of them would be taken apart: the processor lends the registers alone.
#[tactic(auto, using(access::proofs::Sequence::sequenced))]
fn operate<B: Bus>(
    processor: &mut Processor<'_, B>,
    decoded: Decoded,
    standing: &mut Standing,
    lines: u32,
) -> Result<(), Fault>
    ensures meaning { Performs B.cells (λ r. operated decoded r lines) processor.old result processor.new }
    ensures standing { standing.new ≡ stands result decoded.row.operation standing.old }
{
    let Decoded {
        row,
        operand: bytes,
    } = decoded;
    let address = operand_address(processor.bus, row.mode, bytes, processor.registers)?;
    let operand = Operand {
        mode: row.mode,
        bytes,
        address,
    };
    act(processor, row.operation, operand, standing, lines)
}

// Moves the program counter on to the next instruction.
fn move_on(decoded: Decoded, registers: &mut Registers)
    ensures { registers.new ≡ moved_on decoded registers.old }
{
    registers.pc = registers.pc.wrapping_add(u16::from(decoded.row.bytes));
}

// Moves the program counter on and carries the instruction out, at the row's cycles. A fault puts the program counter back: on a copy of
// the registers, which a fault would leave behind, a session took 1.4 times as long. `bus, live` as in `execute`.
#[tactic(auto, using(crate::proofs::Executed::carried))]
pub(crate) fn carry_out<B: Bus>(bus: &mut B, decoded: Decoded, live: &mut Live) -> Result<u8, Fault>
    ensures { (result, live.new, B.cells bus.new) ≡ executes live.old (perform (carried_out live.old decoded) (B.cells bus.old)) }
{
    let pc = live.registers.pc;
    move_on(decoded, &mut live.registers);
    let mut processor = Processor {
        bus,
        registers: &mut live.registers,
    };
    match operate(&mut processor, decoded, &mut live.standing, live.lines) {
        Ok(()) => Ok(decoded.row.cycles),
        Err(fault) => {
            live.registers.pc = pc;
            Err(fault)
        }
    }
}
