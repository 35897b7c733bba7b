// Words in memory and on the stack.
ghost use Rattle.std.specs.Prelude.{◌≡◌};
ghost use Rattle.access.specs.Access.{perform};
ghost use Rattle.access.specs.Words.{fetch_word, store_word, pushed_word};

use crate::cells::{read_cell, store_cell};
use crate::fault::Fault;
use alu::words::word;
use bus::traits::Bus;

// Reads a word, its high byte first.
pub fn read_word<B: Bus>(bus: &mut B, address: u16) -> Result<u16, Fault>
    ensures { (result, B.cells bus.new) ≡ perform (fetch_word address) (B.cells bus.old) }
{
    let high = read_cell(bus, address)?;
    let low = read_cell(bus, address.wrapping_add(1))?;
    Ok(word(high, low))
}

// Stores a word, its high byte first.
pub fn store_word<B: Bus>(bus: &mut B, address: u16, word: u16) -> Result<(), Fault>
    ensures { (result, B.cells bus.new) ≡ perform (store_word address word) (B.cells bus.old) }
{
    let [high, low] = word.to_be_bytes();
    store_cell(bus, address, high)?;
    store_cell(bus, address.wrapping_add(1), low)
}

// Pushes a word down from a place of the stack, its low byte first. `store_word` stores the other byte first, and where the second cell
// is missing the first store stands: one function for both would be told both addresses, and which byte comes first.
pub fn push_word<B: Bus>(bus: &mut B, sp: u16, word: u16) -> Result<(), Fault>
    ensures { (result, B.cells bus.new) ≡ perform (pushed_word sp word) (B.cells bus.old) }
{
    let [high, low] = word.to_be_bytes();
    store_cell(bus, sp, low)?;
    store_cell(bus, sp.wrapping_sub(1), high)
}
