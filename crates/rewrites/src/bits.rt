// BSET and BCLR.
ghost use Rattle.std.specs.Prelude.{◌≡◌};
ghost use Rattle.access.specs.Access.{perform};
ghost use Rattle.rewrites.specs.Bits.{memory_bit_changed};

use access::cells::{read_cell, store_cell};
use access::fault::Fault;
use bus::traits::Bus;
use effects::bits::change_bit;
use isa::operation::BitChange;

// Sets or clears a bit of the operand. `change, address`: see `Processor`, of which this takes the bus alone, since no register changes.
pub fn change_memory_bit<B: Bus>(bus: &mut B, change: BitChange, address: u16) -> Result<(), Fault>
    ensures { (result, B.cells bus.new) ≡ perform (memory_bit_changed change address) (B.cells bus.old) }
{
    let byte = read_cell(bus, address)?;
    store_cell(bus, address, change_bit(change, byte))
}
