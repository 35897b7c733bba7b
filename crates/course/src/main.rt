// `course`: runs a board's image by the orders on standard input, and prints a row for each.
#![tactic(auto)]

use session::course::{INPUT_LIMIT, course};
use std::io;
use std::io::{Read, Write};

fn main(rt: HostRuntime) -> io::Result<()> {
    let mut input = Vec::new(rt.alloc());
    rt.stdin().take(INPUT_LIMIT as u64).read_to_end(&mut input)?;
    let printed = course(rt.alloc(), input.as_slice())?;
    rt.stdout().write_all(printed.as_bytes())
}
