// What a board shows.
ghost use Rattle.std.specs.Prelude.{◌≡◌};

use crate::board::Board;
use bus::traits::Bus;
use isa::core08::Core;
use state::live::Live;
use state::registers::Registers;
use state::standing::Standing;

impl<B: Bus, C: Core, S> Board<B, C, S> {
    // The cycles that have passed, from the starting clock on.
    pub fn clock(&self) -> u64
        ensures { result ≡ self.now.clock }
    {
        self.clock
    }
}

impl<B: Bus, C: Core> Board<B, C, Live> {
    pub fn registers(&self) -> Registers
        ensures { result ≡ self.now.stage.registers }
    {
        self.stage.registers
    }

    pub fn standing(&self) -> Standing
        ensures { result ≡ self.now.stage.standing }
    {
        self.stage.standing
    }

    // The raised lines: bit n is line n.
    pub fn lines(&self) -> u32
        ensures { result ≡ self.now.stage.lines }
    {
        self.stage.lines
    }
}
