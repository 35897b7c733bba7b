// Taking a record line while a memory is loaded.
ghost use Rattle.std.specs.Prelude.{◌≡◌, ◌+◌, ◌/◌, ◌≤◌, false, length, Ok};
ghost use Rattle.bus.specs.Cell.{store_answer};
ghost use Rattle.srecord.specs.Load.{open_answer, open_from, stored_data, data_answer, data_memory, record_taken, line_taken, DataLine, DataSpelled};
ghost use Rattle.srecord.specs.Record.{parsed_by};

use crate::hex_digits::HexDigits;
use crate::reader::read_record;
use crate::record::Record;
use crate::refusal::LineRefusal;
use bus::cell::{BusRefusal, Class};
use bus::traits::{ADDRESSES, Bus};

// Takes a line: stores the data of a data record, and sets `ended` at an end record. A refused line changes nothing. No value goes
// with `ended`: it is all that is kept of the lines so far. `bus, ended` are two fields of a loading board, which lends them apart.
pub fn take_line<B: Bus>(bus: &mut B, ended: &mut bool, line: &[u8]) -> Result<(), LineRefusal>
    ensures answer { result ≡ (line_taken ended.old (B.cells bus.old) line.now).answer }
    ensures ending { ended.new ≡ (line_taken ended.old (B.cells bus.old) line.now).is_ended }
    ensures memory { B.cells bus.new ≡ (line_taken ended.old (B.cells bus.old) line.now).memory }
    ensures cells_spelled { DataLine line.now → result ≡ Ok tt → DataSpelled line.now (B.cells bus.old) (B.cells bus.new) }
{
    if *ended {
        return Err(LineRefusal::AfterEnd);
    }
    take_record(bus, ended, read_record(line)?)
}

// Takes what a line says. An arm a kind of record, and none takes the rest: that of data has the parts which data borrows, and a table by
// kind would have to take them out by a match of its own.
fn take_record<B: Bus>(bus: &mut B, ended: &mut bool, parsed: Record<'_>) -> Result<(), LineRefusal>
    requires { ended.old ≡ false }
    ensures answer { result ≡ (record_taken (B.cells bus.old) (parsed_by parsed.entry)).answer }
    ensures ending { ended.new ≡ (record_taken (B.cells bus.old) (parsed_by parsed.entry)).is_ended }
    ensures memory { B.cells bus.new ≡ (record_taken (B.cells bus.old) (parsed_by parsed.entry)).memory }
{
    match parsed {
        Record::Header { .. } => Ok(()),
        Record::Data { address, digits } => take_data(bus, u16::from(address), digits),
        Record::End { .. } => {
            *ended = true;
            Ok(())
        }
    }
}

// Stores data, if every byte has an open cell. `address, digits` are the parts of a data record, whose address is read by now.
fn take_data<B: Bus>(bus: &mut B, address: u16, digits: HexDigits<'_>) -> Result<(), LineRefusal>
    ensures answer { result ≡ data_answer (B.cells bus.old) address digits.entry.characters.now }
    ensures memory { B.cells bus.new ≡ data_memory (B.cells bus.old) address digits.entry.characters.now }
{
    let count = digits.len() / 2;
    if usize::from(address) + count > ADDRESSES {
        return Err(LineRefusal::PastTheEnd);
    }
    require_open(bus, address, count)?;
    store_data(bus, address, digits);
    Ok(())
}

// Refuses the lowest of the cells from an address on that is not open. The range is of the size of a length, here and below, since 65,536,
// where it may end, is no address.
fn require_open<B: Bus>(bus: &B, address: u16, count: usize) -> Result<(), LineRefusal>
    requires { address + count ≤ 65536 }
    ensures { result ≡ open_from (B.cells bus.now) address count }
{
    let first = usize::from(address);
    (first..first + count).try_for_each(|place| require_open_cell(bus, place as u16))
}

// Refuses a cell that is not open. An open class has no refusal: a `TryFrom` from class to refusal would answer its error where all is
// well, and a match on its answer would stand here in place of this one. A function of `Class` in `bus` would have this match in it, and
// be called here alone.
fn require_open_cell<B: Bus>(bus: &B, address: u16) -> Result<(), LineRefusal>
    ensures { result ≡ open_answer address (store_answer (B.cells bus.now address)) }
{
    let refusal = match bus.class(address) {
        Class::Open => return Ok(()),
        Class::Guarded => BusRefusal::GuardedCell,
        Class::Missing => BusRefusal::MissingCell,
    };
    Err(LineRefusal::NotOpen { address, refusal })
}

// Stores the bytes that digits spell, from an address on. The cells are open, so that none refuses its byte.
fn store_data<B: Bus>(bus: &mut B, address: u16, digits: HexDigits<'_>)
    requires { address + length digits.characters.now / 2 ≤ 65536 }
    ensures { B.cells bus.new ≡ stored_data (B.cells bus.old) address digits.entry.characters.now (length digits.entry.characters.now / 2) }
{
    let first = usize::from(address);
    for (place, byte) in (first..ADDRESSES).zip(digits.bytes()) {
        let _ = bus.store(place as u16, byte);
    }
}
