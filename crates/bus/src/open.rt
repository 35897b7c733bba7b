// The open memory: the caller's bytes, every one of them open.
ghost use Rattle.std.specs.Prelude.{◌≡◌, ℕ, ◌≤◌, slice_index};
ghost use Rattle.bus.specs.Open.{open_cells, open_stored};
ghost use Rattle.bus.specs.Cell.{read_answer, store_answer, stored};
ghost use Rattle.std.proofs.Common.{rules};

use crate::cell::{BusRefusal, Class};
use crate::traits::Bus;

// The cell at an address below the number of bytes is open, the others are missing.
#[derive(Drop)]
pub struct OpenMemory {
    bytes: Vec<u8>,
}

// Takes the caller's bytes. Those past 65,536 have no address.
impl From<Vec<u8>> for OpenMemory {
    ghost from_gives = { λ bytes memory. (memory.bytes ≡ bytes) × (open_cells memory.bytes.items ≡ open_cells bytes.items) };

    fn from(bytes: Vec<u8>) -> OpenMemory {
        OpenMemory { bytes }
    }
}

// Gives the bytes back.
impl From<OpenMemory> for Vec<u8> {
    ghost from_gives = { λ memory bytes. bytes ≡ memory.bytes };

    fn from(memory: OpenMemory) -> Vec<u8> {
        memory.bytes
    }
}

impl Bus for OpenMemory {
    ghost cells = { λ s. open_cells s.bytes.items };

    ghost bounded = { Prim.search rules };

    fn class(&self, address: u16) -> Class {
        if usize::from(address) < self.bytes.len() {
            Class::Open
        } else {
            Class::Missing
        }
    }

    fn read(&mut self, address: u16) -> Result<u8, BusRefusal>
        ensures value { result ≡ read_answer (open_cells self.old.bytes.items address) }
        ensures same { open_cells self.new.bytes.items ≡ open_cells self.old.bytes.items }
        ensures bytes { self.new.bytes.items ≡ self.old.bytes.items }
    {
        let shown = self.bytes.get(usize::from(address));
        shown.copied().ok_or(BusRefusal::MissingCell)
    }

    fn store(&mut self, address: u16, byte: u8) -> Result<(), BusRefusal>
        ensures value { result ≡ store_answer (open_cells self.old.bytes.items address) }
        ensures after { open_cells self.new.bytes.items ≡ stored (open_cells self.old.bytes.items) address byte }
        ensures bytes { self.new.bytes.items ≡ open_stored self.old.bytes.items address byte }
        ensures untouched { (k : ℕ) → 65536 ≤ k → slice_index self.new.bytes.items k ≡ slice_index self.old.bytes.items k }
    {
        let cell = self.bytes.get_mut(usize::from(address));
        let cell = cell.ok_or(BusRefusal::MissingCell)?;
        *cell = byte;
        Ok(())
    }
}
