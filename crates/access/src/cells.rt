// Single accesses to memory.
ghost use Rattle.std.specs.Prelude.{◌≡◌};
ghost use Rattle.access.specs.Access.{done, read, store, perform};

use crate::fault::Fault;
use bus::cell::BusRefusal;
use bus::traits::Bus;

// Reads the byte that a cell shows.
pub fn read_cell<B: Bus>(bus: &mut B, address: u16) -> Result<u8, Fault>
    ensures { (result, B.cells bus.new) ≡ perform (read address done) (B.cells bus.old) }
{
    bus.read(address).map_err(|_| Fault::MissingCell)
}

// Stores a byte; a guarded cell drops it.
pub fn store_cell<B: Bus>(bus: &mut B, address: u16, byte: u8) -> Result<(), Fault>
    ensures { (result, B.cells bus.new) ≡ perform (store address byte (done tt)) (B.cells bus.old) }
{
    match bus.store(address, byte) {
        Ok(()) | Err(BusRefusal::GuardedCell) => Ok(()),
        Err(BusRefusal::MissingCell) => Err(Fault::MissingCell),
    }
}
