// The life of a board.
use crate::check::check_eq;
use board::board::{Board, CLOCK_LIMIT};
use board::refusal::{Refusal, Refused};
use board::stages::Loading;
use bus::open::OpenMemory;
use isa::core08::Core;
use isa::first_set::FirstSet;
use isa::model::Model;
use state::live::Live;
use state::standing::Standing;
use std::alloc::Global;
use std::test::Fail;

// A loading board over so many zeros.
fn loading(
    heap: Global,
    size: usize,
    clock: u64,
) -> Result<Board<OpenMemory, FirstSet<Model>, Loading>, Fail> {
    let memory = OpenMemory::from(vec![in heap; 0u8; size]?);
    let Ok(board) = Board::make(memory, FirstSet(Model::Hcs08), clock) else {
        return Err(Fail::new("not made"));
    };
    Ok(board.begin())
}

// A board just reset, after one record line and the end record.
fn live(
    heap: Global,
    size: usize,
    clock: u64,
    line: &[u8],
) -> Result<Board<OpenMemory, FirstSet<Model>, Live>, Fail> {
    let mut board = loading(heap, size, clock)?;
    check_eq(refusal_of(board.line(line)), 0)?;
    check_eq(refusal_of(board.line(b"S9030000FC")), 0)?;
    let Ok(ready) = board.close() else {
        return Err(Fail::new("not closed"));
    };
    Ok(ready.reset())
}

// The number of a refusal, or 0.
fn refusal_of<T: Drop>(answer: Result<T, Refusal>) -> u8 {
    answer.err().map_or(0, u8::from)
}

// A clock past the limit is refused, and memory and core come back. At the limit the board is made.
#[test]
fn making(rt: HostRuntime) -> Result<(), Fail> {
    assert_eq!(rt; CLOCK_LIMIT, 1_000_000_000_000_000_000);
    let memory = OpenMemory::from([1, 2, 3].to_vec(rt.alloc())?);
    let Err(refused) = Board::make(memory, FirstSet(Model::Hcs08), CLOCK_LIMIT + 1) else {
        return Err(Fail::new("made past the limit"));
    };
    let Refused {
        refusal,
        back: (memory, core),
    } = refused;
    assert_eq!(rt; u8::from(refusal), 35);
    assert_eq!(rt; core.entry_cycles(), 11);
    assert_eq!(rt; Vec::from(memory).as_slice(), [1, 2, 3].as_slice());
    assert_eq!(rt; loading(rt.alloc(), 0, CLOCK_LIMIT)?.clock(), CLOCK_LIMIT);
    Ok(())
}

// Closing is refused before the end record, and then the board goes on; after it, each line is.
#[test]
fn closing(rt: HostRuntime) -> Result<(), Fail> {
    let Err(refused) = loading(rt.alloc(), 16, 0)?.close() else {
        return Err(Fail::new("closed without an end record"));
    };
    let Refused {
        refusal,
        back: mut board,
    } = refused;
    assert_eq!(rt; u8::from(refusal), 20);
    assert_eq!(rt; refusal_of(board.line(b"S107000E01020304E0")), 17);
    assert_eq!(rt; refusal_of(board.line(b"S105000E0102E9")), 0);
    assert_eq!(rt; refusal_of(board.line(b"S9030000FC")), 0);
    assert_eq!(rt; refusal_of(board.line(b"S105000E0102E9")), 10);
    assert!(rt; board.close().is_ok());
    Ok(())
}

// A memory without a reset vector halts the board at 0.
#[test]
fn halted_from_reset(rt: HostRuntime) -> Result<(), Fail> {
    let mut board = live(rt.alloc(), 16, 7, b"S105000E0102E9")?;
    assert_eq!(rt; board.standing(), Standing::Halted);
    assert_eq!(rt; board.registers().pc, 0);
    assert_eq!(rt; refusal_of(board.step()), 30);
    let Ok(run) = board.run(1) else {
        return Err(Fail::new("run refused"));
    };
    assert_eq!(rt; run, (0, 0, 30));
    assert_eq!(rt; refusal_of(board.run(65_536)), 33);
    for line in [0, 1, 32, u32::MAX] {
        assert_eq!(rt; refusal_of(board.raise_line(line)), 34);
        assert_eq!(rt; refusal_of(board.drop_line(line)), 34);
    }
    assert_eq!(rt; refusal_of(board.raise_line(31)), 0);
    assert_eq!(rt; refusal_of(board.raise_line(2)), 0);
    assert_eq!(rt; board.lines(), 0x8000_0004);
    assert_eq!(rt; refusal_of(board.drop_line(31)), 0);
    assert_eq!(rt; board.lines(), 0x0000_0004);
    assert_eq!(rt; board.clock(), 7);
    Ok(())
}

// Checks the one step that a board takes of an instruction at 0, and the refusal of the next.
fn steps_once(
    heap: Global,
    line: &[u8],
    clock: u64,
    cycles: u8,
    standing: Standing,
    refusal: u8,
) -> Result<(), Fail> {
    let mut board = live(heap, 65_536, clock, line)?;
    let Ok(taken) = board.step() else {
        return Err(Fail::new("step refused"));
    };
    check_eq(taken, cycles)?;
    check_eq(board.standing(), standing)?;
    check_eq(board.clock().wrapping_sub(clock), u64::from(cycles))?;
    check_eq(refusal_of(board.step()), refusal)
}

// NOP, WAIT, STOP and BGND at the limit, which a step may pass; then STOP and what is no instruction at 0. Halted is
// looked for before the clock, and the clock before stopped.
#[test]
fn last_steps(rt: HostRuntime) -> Result<(), Fail> {
    let heap = rt.alloc();
    steps_once(heap, b"S10400009D5E", CLOCK_LIMIT, 1, Standing::Running, 31)?;
    steps_once(heap, b"S10400008F6C", CLOCK_LIMIT, 2, Standing::Waiting, 31)?;
    steps_once(heap, b"S10400008E6D", CLOCK_LIMIT, 2, Standing::Stopped, 31)?;
    steps_once(heap, b"S10400008279", CLOCK_LIMIT, 5, Standing::Halted, 30)?;
    steps_once(heap, b"S10400008E6D", 0, 2, Standing::Stopped, 32)?;
    steps_once(heap, b"S104000000FB", 0, 0, Standing::Halted, 30)
}
