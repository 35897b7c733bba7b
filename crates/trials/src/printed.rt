// What a session prints for its lines.
use crate::check::check_eq;
use session::course::course;
use std::alloc::{AllocError, Global};
use std::test::Fail;

// Adds lines to a text, a line feed after each.
pub(crate) fn add_lines(text: &mut Vec<u8>, lines: &[&str]) -> Result<(), AllocError> {
    for line in lines {
        text.extend_from_slice(line.as_bytes())?;
        text.push(b'\n')?;
    }
    Ok(())
}

// Checks that an input prints these rows and nothing else.
pub(crate) fn prints(heap: Global, input: &[u8], rows: &[&str]) -> Result<(), Fail> {
    let mut expected = String::new(heap);
    for row in rows {
        writeln!(expected, "{row}")?;
    }
    let printed = course(heap, input)?;
    check_eq(printed.as_str(), expected.as_str())
}

// Checks that a core's session of these lines prints these rows and nothing else.
pub(crate) fn answers(heap: Global, core: &str, lines: &[&str], rows: &[&str]) -> Result<(), Fail> {
    let mut input = Vec::new(heap);
    add_lines(&mut input, &[core])?;
    add_lines(&mut input, lines)?;
    prints(heap, input.as_slice(), rows)
}
