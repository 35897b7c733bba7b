// Long inputs, and inputs of no sense.
use crate::check::check_eq;
use crate::printed::{add_lines, prints};
use session::course::course;
use std::alloc::{AllocError, Global};
use std::str::from_utf8;
use std::test::Fail;

// The countdown in 51 bytes, a line of so many letters, and two orders.
fn long_input(heap: Global, letters: usize) -> Result<Vec<u8>, AllocError> {
    let image = [
        "H",
        "S1098000A6054A26FD8ED0",
        "S105FFFE80007D",
        "S9030000FC",
    ];
    let mut text = Vec::new(heap);
    add_lines(&mut text, &image)?;
    text.extend_from_slice(vec![in heap; b'x'; letters]?.as_slice())?;
    add_lines(&mut text, &["", "R 20", "R 20"])?;
    Ok(text)
}

// Of the 32,768 bytes, 51 are the image's and 1 is the letters' line feed. What is left for the orders is `R 2`, or `R `.
// Two steps are LDA #5 and DECA. Of line feeds alone, the last one that is looked at ends line 32,767.
#[test]
fn cut_at_the_limit(rt: HostRuntime) -> Result<(), Fail> {
    let heap = rt.alloc();
    let letters = "     5     0       0 36 32768   0     0   255 104";
    let two_steps = "     6     2       3  0 32771   4     0   255 104";
    prints(
        heap,
        long_input(heap, 32_713)?.as_slice(),
        &[letters, two_steps],
    )?;
    let no_order = "     6     0       0 36 32768   0     0   255 104";
    prints(
        heap,
        long_input(heap, 32_714)?.as_slice(),
        &[letters, no_order],
    )?;
    let mut feeds = vec![in heap; b'\n'; 40_000]?;
    assert!(rt; feeds.len() == 40_000);
    feeds[0] = b'H';
    let printed = course(heap, feeds.as_slice())?;
    assert!(rt; printed.len() == 50 * 32_766);
    let last = from_utf8(&printed.as_bytes()[50 * 32_765..])?;
    assert_eq!(rt; last, " 32767     0       0 11     0   0     0     0   0\n");
    Ok(())
}

const CHARACTERS: &[u8; 16] = b"RUD 0123456789\n\n";

// Lines, and after them bytes of no sense that end in a line feed: any, or those of orders.
fn noise(heap: Global, lines: &[&str], ordered: bool) -> Result<Vec<u8>, AllocError> {
    let mut text = Vec::new(heap);
    add_lines(&mut text, lines)?;
    let mut state: u32 = 2026;
    for _i in 0..2000 {
        state = state.wrapping_mul(1_664_525).wrapping_add(1_013_904_223);
        let [byte, ..] = state.to_be_bytes();
        text.push(if ordered {
            CHARACTERS[usize::from(byte) % 16]
        } else {
            byte
        })?;
    }
    text.push(b'\n')?;
    Ok(text)
}

// Checks that each line but the first few prints a row.
fn all_answered(heap: Global, input: &[u8], silent: usize) -> Result<(), Fail> {
    let printed = course(heap, input)?;
    let lines = input.iter().filter(|byte| **byte == b'\n').count();
    check_eq(printed.len() % 50, 0)?;
    check_eq(printed.len() / 50, lines.wrapping_sub(silent))
}

#[test]
fn survives_noise(rt: HostRuntime) -> Result<(), Fail> {
    let heap = rt.alloc();
    all_answered(heap, noise(heap, &["H"], false)?.as_slice(), 1)?;
    let image = ["K", "S10680008F20FDCD", "S105FFFE80007D", "S9030000FC"];
    all_answered(heap, noise(heap, &image, true)?.as_slice(), 4)?;
    all_answered(heap, noise(heap, &image, false)?.as_slice(), 4)
}
