// A ready board: reset makes it live.
ghost use Rattle.std.specs.Prelude.{◌≡◌};
ghost use Rattle.board.specs.Situation.{situation};
ghost use Rattle.board.specs.Ready.{reset_of, reset_registers};

use crate::board::Board;
use crate::stages::Ready;
use access::words::read_word;
use alu::flags::Flags;
use bus::traits::Bus;
use isa::core08::Core;
use state::live::Live;
use state::registers::Registers;
use state::standing::Standing;

// Where the reset vector stands.
const RESET_VECTOR: u16 = 0xFFFE;

// The registers after a reset, with I set.
fn reset_registers(pc: u16) -> Registers
    ensures { result ≡ reset_registers pc }
{
    let flags = Flags {
        i: true,
        ..Flags::default()
    };
    Registers {
        sp: 0x00FF,
        pc,
        flags,
        ..Registers::default()
    }
}

impl<B: Bus, C: Core> Board<B, C, Ready> {
    // Starts at the reset vector with all lines dropped; halts where the vector is missing.
    pub fn reset(mut self) -> Board<B, C, Live>
        ensures { situation B.cells result ≡ reset_of (situation B.cells self) }
    {
        let (pc, standing) = read_word(&mut self.bus, RESET_VECTOR).map_or(
            (0, Standing::Halted),
            |pc| (pc, Standing::Running),
        );
        self.at(Live {
            registers: reset_registers(pc),
            standing,
            lines: 0,
        })
    }
}
