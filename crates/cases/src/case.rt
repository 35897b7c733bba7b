// Cases of one instruction: a line of text in hexadecimal digits, cut by bars into
// - the registers before: A, H:X, SP, PC and the condition codes,
// - the instruction's bytes, which stand at PC,
// - other cells, as 0050=12; all that are not named hold 0,
// - the registers after,
// - the cells that are stored,
// - the cycles on the CPU08 and on the HCS08, in decimal digits; 0 where the core has no such instruction.
use crate::check::check_eq;
use access::fault::Fault;
use alu::flags::Flags;
use bus::open::OpenMemory;
use bus::traits::Bus;
use isa::model::Model;
use machine::execute::execute;
use state::live::Live;
use state::registers::Registers;
use state::standing::Standing;
use std::alloc::Global;
use std::test::Fail;

// The parts of a case, but for the cycles, and its whole text for what a failed check says.
#[derive(Clone, Copy)]
struct Case<'a> {
    text: &'a str,
    before: &'a str,
    code: &'a str,
    cells: &'a str,
    after: &'a str,
    stores: &'a str,
}

// Cuts a text at its first bar.
fn cut(text: &str) -> Result<(&str, &str), Fail> {
    Ok(text.split_once('|').ok_or("a bar is missing")?)
}

// A byte and a word are a line each over the library's conversion, which is a function of each type and of no trait.
fn byte(text: Option<&str>) -> Result<u8, Fail> {
    Ok(u8::from_str_radix(text.ok_or("a byte is missing")?, 16)?)
}

fn word(text: Option<&str>) -> Result<u16, Fail> {
    Ok(u16::from_str_radix(text.ok_or("a word is missing")?, 16)?)
}

fn registers_of(text: &str) -> Result<Registers, Fail> {
    let mut words = text.split_whitespace();
    let a = byte(words.next())?;
    let hx = word(words.next())?;
    let sp = word(words.next())?;
    let pc = word(words.next())?;
    let flags = Flags::from(byte(words.next())?);
    if words.next().is_some() {
        return Err(Fail::new(format_args!("more than five words: {text}")));
    }
    let [h, x] = hx.to_be_bytes();
    Ok(Registers {
        a,
        h,
        x,
        sp,
        pc,
        flags,
    })
}

// Stores bytes that are written as 0050=12.
fn store_cells(memory: &mut OpenMemory, cells: &str) -> Result<(), Fail> {
    for cell in cells.split_whitespace() {
        let (address, held) = cell.split_once('=').ok_or("no cell")?;
        memory.store(word(Some(address))?, byte(Some(held))?)?;
    }
    Ok(())
}

// A memory of so many cells that holds a case's instruction and cells.
fn set_up(heap: Global, size: usize, case: Case<'_>) -> Result<OpenMemory, Fail> {
    let mut memory = OpenMemory::from(vec![in heap; 0u8; size]?);
    let pc = registers_of(case.before)?.pc;
    for (place, code) in (0..=u16::MAX).zip(case.code.split_whitespace()) {
        memory.store(pc.wrapping_add(place), byte(Some(code))?)?;
    }
    store_cells(&mut memory, case.cells)?;
    Ok(memory)
}

// Executes a case's instruction, checks the registers and every cell, and hands on the answer.
fn carry_out(
    heap: Global,
    core: Model,
    size: usize,
    case: Case<'_>,
) -> Result<Result<u8, Fault>, Fail> {
    let mut live = Live {
        registers: registers_of(case.before)?,
        standing: Standing::Running,
        lines: 0,
    };
    let mut memory = set_up(heap, size, case)?;
    let mut expected = set_up(heap, size, case)?;
    store_cells(&mut expected, case.stores)?;
    let answer = execute(&mut memory, &core, &mut live);
    check_eq(live.registers, registers_of(case.after)?, case.text)?;
    check_eq(live.standing, Standing::Running, case.text)?;
    let (left, wanted) = (Vec::from(memory), Vec::from(expected));
    if left.as_slice() != wanted.as_slice() {
        return Err(Fail::new(format_args!("other cells: {}", case.text)));
    }
    Ok(answer)
}

// Checks a case on one core. Where that has no such instruction, nothing changes.
fn holds_on(heap: Global, core: Model, cycles: &str, case: Case<'_>) -> Result<(), Fail> {
    let cycles = cycles.parse::<u8>()?;
    let expected = if cycles == 0 {
        Case {
            after: case.before,
            stores: "",
            ..case
        }
    } else {
        case
    };
    match carry_out(heap, core, 65_536, expected)? {
        Ok(taken) => check_eq(taken, cycles, case.text),
        Err(Fault::NoInstruction) => check_eq(0, cycles, case.text),
        Err(Fault::MissingCell) => Err(Fail::new(format_args!("a cell is missing: {}", case.text))),
    }
}

// The first three parts of a case that so far changes nothing, and what follows them.
fn begun(text: &str) -> Result<(Case<'_>, &str), Fail> {
    let (before, rest) = cut(text)?;
    let (code, rest) = cut(rest)?;
    let (cells, rest) = cut(rest)?;
    let case = Case {
        text,
        before,
        code,
        cells,
        after: before,
        stores: "",
    };
    Ok((case, rest))
}

fn holds_on_both(heap: Global, text: &str) -> Result<(), Fail> {
    let (case, rest) = begun(text)?;
    let (after, rest) = cut(rest)?;
    let (stores, cycles) = cut(rest)?;
    let case = Case {
        after,
        stores,
        ..case
    };
    let mut words = cycles.split_whitespace();
    holds_on(heap, Model::Cpu08, words.next().unwrap_or(""), case)?;
    holds_on(heap, Model::Hcs08, words.next().unwrap_or(""), case)
}

// Checks that cases hold.
pub(crate) fn hold(heap: Global, cases: &[&str]) -> Result<(), Fail> {
    for text in cases {
        holds_on_both(heap, *text)?;
    }
    Ok(())
}

fn faults_on(heap: Global, core: Model, size: usize, text: &str) -> Result<(), Fail> {
    let (case, stores) = begun(text)?;
    let case = Case { stores, ..case };
    match carry_out(heap, core, size, case)? {
        Err(Fault::MissingCell) => Ok(()),
        Err(Fault::NoInstruction) => Err(Fail::new(format_args!("no instruction: {text}"))),
        Ok(_) => Err(Fail::new(format_args!("no fault: {text}"))),
    }
}

// Checks that cases answer a missing cell, in a memory of so many cells. Such a case has the registers
// before, which stay as they are, the instruction's bytes, other cells, and the cells that are stored before the fault.
pub(crate) fn fault(heap: Global, size: usize, cases: &[&str]) -> Result<(), Fail> {
    for text in cases {
        faults_on(heap, Model::Cpu08, size, *text)?;
        faults_on(heap, Model::Hcs08, size, *text)?;
    }
    Ok(())
}
