// The entry of an interrupt request.
use crate::check::check_eq;
use alu::flags::Flags;
use bus::open::OpenMemory;
use isa::core08::Core;
use isa::first_set::FirstSet;
use isa::model::Model;
use machine::request::enter;
use state::live::Live;
use state::registers::Registers;
use state::standing::Standing;
use std::alloc::Global;
use std::test::Fail;

// Enters the request of the lowest of the lines 5 and 9 in a memory of zeros but for the vector of 5, at 65534 - 10, and answers what the
// machine then holds, and the memory.
fn entered<C: Core>(heap: Global, core: &C) -> Result<(Live, Vec<u8>), Fail> {
    let mut bytes = vec![in heap; 0u8; 65_536]?;
    if bytes.len() != 65_536 {
        return Err(Fail::new("no whole memory"));
    }
    bytes[65_524] = 0xAB;
    bytes[65_525] = 0xCD;
    let registers = Registers {
        a: 0x78,
        h: 0x9A,
        x: 0x56,
        sp: 2,
        pc: 0x1234,
        flags: Flags::from(0xE5),
    };
    let mut memory = OpenMemory::from(bytes);
    let mut live = Live {
        registers,
        standing: Standing::Waiting,
        lines: 0x0000_0220,
    };
    let Ok(cycles) = enter(&mut memory, core, &mut live) else {
        return Err(Fail::new("no entry"));
    };
    check_eq(cycles, 11, "cycles")?;
    Ok((live, Vec::from(memory)))
}

// The frame goes from 2 down past 0: PC low, PC high, X, A and the condition codes, before I is set. H is not pushed.
fn frame_on<C: Core>(heap: Global, core: &C) -> Result<(), Fail> {
    let (live, bytes) = entered(heap, core)?;
    let after = live.registers;
    let expected = Registers {
        a: 0x78,
        h: 0x9A,
        x: 0x56,
        sp: 65_533,
        pc: 0xABCD,
        flags: Flags::from(0xED),
    };
    check_eq(live.standing, Standing::Running, "standing")?;
    check_eq(after, expected, "registers")?;
    check_eq(
        (after.pc, after.sp, after.hx()),
        (0xABCD, 65_533, 0x9A56),
        "words",
    )?;
    check_eq((after.a, u8::from(after.flags)), (0x78, 0xED), "bytes")?;
    if bytes.len() != 65_536 {
        return Err(Fail::new("no whole memory"));
    }
    check_eq((bytes[2], bytes[1], bytes[0]), (0x34, 0x12, 0x56), "frame")?;
    check_eq(
        (bytes[65_535], bytes[65_534]),
        (0x78, 0xE5),
        "frame, past 0",
    )
}

// The whole core's, and its first set's.
#[test]
fn frame(rt: HostRuntime) -> Result<(), Fail> {
    frame_on(rt.alloc(), &Model::Hcs08)?;
    frame_on(rt.alloc(), &FirstSet(Model::Hcs08))
}

// Tries to enter the request of line 2 in a memory of 256 cells, where its vector is missing, and answers the memory.
fn without_a_vector<C: Core>(heap: Global, core: &C, live: &mut Live) -> Result<Vec<u8>, Fail> {
    let mut memory = OpenMemory::from(vec![in heap; 0u8; 256]?);
    if enter(&mut memory, core, live).is_ok() {
        return Err(Fail::new("an entry"));
    }
    Ok(Vec::from(memory))
}

// A vector that is missing: the frame is on the stack, and the registers and the standing are as they were.
#[test]
fn no_vector(rt: HostRuntime) -> Result<(), Fail> {
    let registers = Registers {
        a: 3,
        x: 4,
        sp: 255,
        pc: 0x0102,
        flags: Flags::from(0x60),
        ..Registers::default()
    };
    let mut live = Live {
        registers,
        standing: Standing::Stopped,
        lines: 4,
    };
    let bytes = without_a_vector(rt.alloc(), &Model::Cpu08, &mut live)?;
    assert_eq!(rt; live.standing, Standing::Stopped);
    assert_eq!(rt; live.registers, registers);
    let after = live.registers;
    assert_eq!(rt; (after.pc, after.sp, after.hx()), (0x0102, 255, 4));
    assert_eq!(rt; (after.a, u8::from(after.flags)), (3, 0x60));
    assert!(rt; bytes.len() == 256);
    assert_eq!(rt; (bytes[255], bytes[254], bytes[253]), (2, 1, 4));
    assert_eq!(rt; (bytes[252], bytes[251]), (3, 0x60));
    Ok(())
}

// With registers of which all but SP and the condition codes are 0 it is refused too, also on the first set.
#[test]
fn no_vector_for_blank_registers(rt: HostRuntime) -> Result<(), Fail> {
    let mut live = Live {
        registers: Registers {
            sp: 255,
            flags: Flags::from(0x60),
            ..Registers::default()
        },
        standing: Standing::Waiting,
        lines: 4,
    };
    without_a_vector(rt.alloc(), &Model::Cpu08, &mut live)?;
    without_a_vector(rt.alloc(), &FirstSet(Model::Cpu08), &mut live)?;
    Ok(())
}
