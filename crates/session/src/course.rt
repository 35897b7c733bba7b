// The session of the program `course`: from its input to all that it prints.
ghost use Rattle.std.specs.Prelude.{◌≡◌, ◌≤◌, length, take, IfOk};
ghost use Rattle.std.specs.String.{string_bytes};
ghost use Rattle.bus.specs.Open.{open_cells};
ghost use Rattle.console.specs.Lines.{lines_of};
ghost use Rattle.session.specs.Course.{course_prints, lines_print, refused_start, session_prints, start, zeroed};
ghost use Rattle.session.specs.Phase.{shown};

use crate::declined::Declined;
use crate::line::Line;
use crate::phase::Phase;
use crate::rows::{blank_row, print_row};
use board::board::Board;
use bus::open::OpenMemory;
use bus::traits::ADDRESSES;
use console::first::core_name;
use console::lines::Lines;
use isa::core08::Core;
use isa::first_set::FirstSet;
use std::alloc::{AllocError, Global};

// Input past this many bytes is never looked at.
pub const INPUT_LIMIT: usize = 32_768;

// A first line that names no core is all that is answered. The answer is bytes, here and below, since `push_row` adds to these.
fn refuse_start(heap: Global) -> Result<Vec<u8>, AllocError>
    ensures { IfOk result (λ text. text.items ≡ refused_start) }
{
    let mut text = Vec::new(heap);
    print_row(&mut text, Some(blank_row(1, Declined::NotUnderstood)))?;
    Ok(text)
}

// Open memory with a zero at every address.
fn zeroed_memory(heap: Global) -> Result<OpenMemory, AllocError>
    ensures { IfOk result (λ m. open_cells m.bytes.items ≡ zeroed) }
{
    Ok(OpenMemory::from(vec![in heap; 0u8; ADDRESSES]?))
}

// A loading board over zeroed open memory, at clock 0.
fn first_phase<C: Core + Drop>(heap: Global, core: C) -> Result<Phase<OpenMemory, C>, AllocError>
    ensures { IfOk result (λ p. shown (λ m. open_cells m.bytes.items) p ≡ start core) }
{
    let memory = zeroed_memory(heap)?;
    let Ok(board) = Board::make(memory, core, 0) else {
        unreachable()
    };
    Ok(Phase::Records(board.begin()))
}

// Takes the lines after the first one.
fn session<C: Core + Drop>(heap: Global, core: C, lines: Lines<'_>) -> Result<Vec<u8>, AllocError>
    requires { length (lines_of lines.0.now) ≤ 32768 }
    ensures { IfOk result (λ text. text.items ≡ session_prints C.table C.entry_figure core (lines_of lines.entry.0.now)) }
{
    let mut text = Vec::new(heap);
    let mut phase = first_phase(heap, core)?;
    for (number, line) in (2..).zip(lines) {
        let (next, row) = phase.take_line(Line { number, text: line });
        phase = next;
        print_row(&mut text, row)?;
    }
    Ok(text)
}

// Takes the first line, and on the core that it names the others. The bound is asked of the text here and of the lines above: a type for
// each would be made once and taken apart once.
#[tactic(auto, using(crate::proofs::Within::lines_within))]
fn take_lines(heap: Global, text: &[u8]) -> Result<Vec<u8>, AllocError>
    requires { length text.now ≤ 32768 }
    ensures { IfOk result (λ printed. printed.items ≡ lines_print (lines_of text.now)) }
{
    let mut lines = Lines(text);
    let Some(first) = lines.next() else {
        return Ok(Vec::new(heap));
    };
    match core_name(first) {
        Some(model) => session(heap, FirstSet(model), lines),
        None => refuse_start(heap),
    }
}

// The part of the input that is looked at.
#[tactic(auto, using(std::proofs::lemmas::List::take_min))]
fn looked_at(input: &[u8]) -> &[u8]
    ensures part { result.now ≡ take 32768 input.now }
    ensures bound { length result.now ≤ 32768 }
{
    &input[..INPUT_LIMIT.min(input.len())]
}

// All that a session prints for its input. It is ASCII, and so a text.
pub fn course(heap: Global, input: &[u8]) -> Result<String, AllocError>
    ensures { IfOk result (λ text. string_bytes text ≡ course_prints input.now) }
{
    let printed = take_lines(heap, looked_at(input))?;
    let Ok(text) = String::from_utf8(printed) else {
        unreachable()
    };
    Ok(text)
}
