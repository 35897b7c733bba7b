// When a branch is taken.
use crate::check::check_eq;
use alu::flags::Flags;
use bus::open::OpenMemory;
use isa::core08::Core;
use isa::first_set::FirstSet;
use isa::model::Model;
use machine::execute::execute;
use state::live::Live;
use state::registers::Registers;
use state::standing::Standing;
use std::alloc::Global;
use std::test::Fail;

// Where a branch at 0 by 16 bytes leads on a core.
fn lands_on<C: Core>(heap: Global, core: &C, opcode: u8, ccr: u8, lines: u32) -> Result<u16, Fail> {
    let mut memory = OpenMemory::from([opcode, 16].to_vec(heap)?);
    let registers = Registers {
        sp: 255,
        flags: Flags::from(ccr),
        ..Registers::default()
    };
    let mut live = Live {
        registers,
        standing: Standing::Running,
        lines,
    };
    if execute(&mut memory, core, &mut live).is_err() {
        return Err(Fail::new("no branch"));
    }
    Ok(live.registers.pc)
}

// Where it leads on the whole core, and alike on its first set.
fn lands(heap: Global, opcode: u8, ccr: u8, lines: u32) -> Result<u16, Fail> {
    let whole = lands_on(heap, &Model::Hcs08, opcode, ccr, lines)?;
    let first = lands_on(heap, &FirstSet(Model::Hcs08), opcode, ccr, lines)?;
    check_eq(first, whole, opcode)?;
    Ok(whole)
}

// An opcode, a condition code byte with which it branches, and one with which it does not. V is $80, H $10, I $08, N $04,
// Z $02 and C $01.
const BRANCHES: [(u8, u8, u8); 24] = [
    // BHI and BLS
    (0x22, 0x60, 0x61),
    (0x22, 0xFC, 0x62),
    (0x23, 0x61, 0x60),
    (0x23, 0x62, 0xFC),
    // BCC, BCS, BNE, BEQ, BHCC, BHCS, BPL, BMI, BMC and BMS
    (0x24, 0xFE, 0x61),
    (0x25, 0x61, 0xFE),
    (0x26, 0xFD, 0x62),
    (0x27, 0x62, 0xFD),
    (0x28, 0xEF, 0x70),
    (0x29, 0x70, 0xEF),
    (0x2A, 0xFB, 0x64),
    (0x2B, 0x64, 0xFB),
    (0x2C, 0xF7, 0x68),
    (0x2D, 0x68, 0xF7),
    // BGE and BLT
    (0x90, 0x60, 0x64),
    (0x90, 0xE4, 0xE0),
    (0x91, 0x64, 0x60),
    (0x91, 0xE0, 0xE4),
    // BGT and BLE
    (0x92, 0x60, 0x62),
    (0x92, 0xE4, 0x64),
    (0x92, 0xE4, 0xE6),
    (0x93, 0x62, 0x60),
    (0x93, 0x64, 0xE4),
    (0x93, 0xE0, 0xE4),
];

#[test]
fn branches(rt: HostRuntime) -> Result<(), Fail> {
    let heap = rt.alloc();
    for (opcode, taken, passed) in BRANCHES {
        assert_eq!(rt; lands(heap, opcode, taken, 0)?, 18, "{}", opcode);
        assert_eq!(rt; lands(heap, opcode, passed, 0)?, 2, "{}", opcode);
    }
    // BRA and BRN; BIL and BIH go by line 2
    assert_eq!(rt; lands(heap, 0x20, 0x60, 0)?, 18);
    assert_eq!(rt; lands(heap, 0x21, 0x60, 0)?, 2);
    assert_eq!(rt; lands(heap, 0x2E, 0x68, 0x0000_0004)?, 18);
    assert_eq!(rt; lands(heap, 0x2E, 0x68, 0xFFFF_FFFB)?, 2);
    assert_eq!(rt; lands(heap, 0x2F, 0x68, 0xFFFF_FFFB)?, 18);
    assert_eq!(rt; lands(heap, 0x2F, 0x68, 0x0000_0004)?, 2);
    Ok(())
}
