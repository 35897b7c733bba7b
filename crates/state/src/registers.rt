// The registers.
ghost use Rattle.std.specs.Prelude.{◌≡◌};
ghost use Rattle.state.specs.Registers.{hx, with_hx, tested};

use alu::flags::Flags;
use alu::logic::test;
use alu::unsigned::Unsigned;
use alu::words::word;

// The accumulator, the index register H:X by its halves, the stack pointer, the program counter and the flags.
#[derive(Clone, Copy, Default, PartialEq, Eq, Debug)]
pub struct Registers {
    pub a: u8,
    pub h: u8,
    pub x: u8,
    pub sp: u16,
    pub pc: u16,
    pub flags: Flags,
}

impl Registers {
    // H:X as a word.
    pub fn hx(&self) -> u16
        ensures { result ≡ hx self.now }
    {
        word(self.h, self.x)
    }

    // H:X becomes a word.
    pub fn put_hx(&mut self, word: u16)
        ensures { self.new ≡ with_hx word self.old }
    {
        [self.h, self.x] = word.to_be_bytes();
    }

    // Tests a byte or a word that is loaded, stored or moved.
    pub fn test<N: Unsigned>(&mut self, value: N)
        ensures { self.new ≡ tested N.BITS (N.number value) self.old }
    {
        self.flags = test(value, self.flags).1;
    }
}
