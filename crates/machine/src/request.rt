// Entering an interrupt request.
ghost use Rattle.std.specs.Prelude.{◌≡◌};
ghost use Rattle.access.specs.Access.{perform};
ghost use Rattle.machine.specs.Execute.{executes};
ghost use Rattle.machine.specs.Request.{entered};

use access::fault::Fault;
use bus::traits::Bus;
use calls::interrupt::interrupt;
use isa::core08::Core;
use operands::processor::Processor;
use state::lines::served_vector;
use state::live::Live;
use state::standing::Standing;

// The machine runs, at the cycles of entry.
fn start<C: Core>(core: &C, standing: &mut Standing) -> u8
    ensures cycles { result ≡ C.entry_figure core.now }
    ensures standing { standing.new ≡ Standing.Running }
{
    *standing = Standing::Running;
    core.entry_cycles()
}

// Enters the request of the lowest raised line, which stays raised, and answers the cycles of entry. `bus, core, live`: as `execute`
// says. The processor is written out here and in `carry_out`: a call of a function that made it would be as long.
pub fn enter<B: Bus, C: Core>(bus: &mut B, core: &C, live: &mut Live) -> Result<u8, Fault>
    ensures { (result, live.new, B.cells bus.new) ≡ executes live.old (perform (entered (C.entry_figure core.now) live.old) (B.cells bus.old)) }
{
    let mut processor = Processor {
        bus,
        registers: &mut live.registers,
    };
    interrupt(&mut processor, served_vector(live.lines))?;
    Ok(start(core, &mut live.standing))
}
