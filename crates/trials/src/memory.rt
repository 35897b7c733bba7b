// Memories, and records taken into them.
use bus::cell::{BusRefusal, Class};
use bus::open::OpenMemory;
use bus::traits::Bus;
use srecord::load::take_line;
use srecord::refusal::LineRefusal;
use std::test::Fail;

// Four bytes are the cells 0 to 3, and there is no other.
#[test]
fn open_memory(rt: HostRuntime) -> Result<(), Fail> {
    let mut memory = OpenMemory::from([10, 11, 12, 13].to_vec(rt.alloc())?);
    for (address, byte) in [(0, 10), (3, 13)] {
        assert_eq!(rt; memory.class(address), Class::Open);
        assert_eq!(rt; memory.read(address), Ok(byte));
        assert_eq!(rt; memory.store(address, byte + 10), Ok(()));
        assert_eq!(rt; memory.read(address), Ok(byte + 10));
    }
    for address in [4, 65535] {
        assert_eq!(rt; memory.class(address), Class::Missing);
        assert_eq!(rt; memory.read(address), Err(BusRefusal::MissingCell));
        assert_eq!(rt; memory.store(address, 1), Err(BusRefusal::MissingCell));
    }
    assert_eq!(rt; u8::from(BusRefusal::MissingCell), 1);
    assert_eq!(rt; u8::from(BusRefusal::GuardedCell), 2);
    assert_eq!(rt; Vec::from(memory).as_slice(), [20, 11, 12, 23].as_slice());
    Ok(())
}

// A byte past the last address has no cell, and stays.
#[test]
fn past_the_last_address(rt: HostRuntime) -> Result<(), Fail> {
    let mut bytes = vec![in rt.alloc(); 7u8; 65_537]?;
    let mut memory = OpenMemory::from(bytes);
    assert_eq!(rt; memory.store(65_535, 8), Ok(()));
    assert_eq!(rt; memory.read(65_535), Ok(8));
    bytes = Vec::from(memory);
    assert!(rt; bytes.len() == 65_537);
    assert_eq!(rt; (bytes[65_534], bytes[65_535], bytes[65_536]), (7, 8, 7));
    Ok(())
}

// Data for the cells 14 to 17 of sixteen is refused for the cell 16, and none is stored.
#[test]
fn data_without_cells(rt: HostRuntime) -> Result<(), Fail> {
    let mut memory = OpenMemory::from(vec![in rt.alloc(); 0u8; 16]?);
    let mut ended = false;
    let missing = LineRefusal::NotOpen {
        address: 16,
        refusal: BusRefusal::MissingCell,
    };
    assert_eq!(rt; u8::from(missing), 17);
    let refused = take_line(&mut memory, &mut ended, b"S107000E01020304E0");
    assert_eq!(rt; refused, Err(missing));
    assert_eq!(rt; memory.read(14), Ok(0));
    assert_eq!(rt;
        take_line(&mut memory, &mut ended, b"S105000E0102E9"),
        Ok(())
    );
    assert_eq!(rt; (memory.read(14), memory.read(15)), (Ok(1), Ok(2)));
    assert!(rt; !ended);
    assert_eq!(rt; take_line(&mut memory, &mut ended, b"S9030000FC"), Ok(()));
    assert!(rt; ended);
    let after = take_line(&mut memory, &mut ended, b"no record");
    assert_eq!(rt; after, Err(LineRefusal::AfterEnd));
    Ok(())
}
