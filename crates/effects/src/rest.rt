// STOP, WAIT and BGND.
ghost use Rattle.std.specs.Prelude.{◌≡◌};
ghost use Rattle.effects.specs.Rest.{rested, stands_at};

use isa::operation::Standstill;
use state::registers::Registers;
use state::standing::Standing;

// STOP and WAIT clear I; BGND halts. Answers how the processor then stands. The kinds are closed: an arm each is plainer than a table.
pub fn rest(standstill: Standstill, registers: &mut Registers) -> Standing
    ensures standing { result ≡ stands_at standstill }
    ensures registers { registers.new ≡ rested standstill registers.old }
{
    let standing = match standstill {
        Standstill::Stop => Standing::Stopped,
        Standstill::Wait => Standing::Waiting,
        Standstill::Bgnd => return Standing::Halted,
    };
    registers.flags.i = false;
    standing
}
