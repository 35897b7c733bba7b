// What every memory promises.
ghost use Rattle.std.specs.Prelude.{◌≡◌, ℕ, ◌≤◌};
ghost use Rattle.bus.specs.Cell.{Cells, missing_cell, class_of, read_answer, store_answer, stored};

use crate::cell::{BusRefusal, Class};

// How many addresses there are: they end at 65,535.
pub const ADDRESSES: usize = 65_536;

// A memory. It means a function from addresses to cells, and each call is an equation over that function.
pub trait Bus {
    ghost cells: { Self → Cells };

    // Asks for the class of a cell.
    fn class(&self, address: u16) -> Class
        ensures { result ≡ class_of (cells self.now address) };

    // Reads the byte that a cell shows.
    fn read(&mut self, address: u16) -> Result<u8, BusRefusal>
        ensures value { result ≡ read_answer (cells self.old address) }
        ensures same { cells self.new ≡ cells self.old };

    // Stores a byte to an open cell.
    fn store(&mut self, address: u16, byte: u8) -> Result<(), BusRefusal>
        ensures value { result ≡ store_answer (cells self.old address) }
        ensures after { cells self.new ≡ stored (cells self.old) address byte };

    // Addresses end at 65,535.
    ghost bounded: { (s : Self) (a : ℕ) → 65536 ≤ a → cells s a ≡ missing_cell };
}
