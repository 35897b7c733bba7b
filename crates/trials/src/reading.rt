// The lines, orders and rows of the console.
use crate::check::check_eq;
use console::lines::{Lines, next_line};
use console::order::Order;
use console::row::{RegisterRow, push_row};
use console::understood::NotUnderstood;
use std::test::Fail;

// Checks how a text is cut after its first line.
fn cuts(text: &[u8], line: &[u8], rest: &[u8]) -> Result<(), Fail> {
    let (first, left) = next_line(text).ok_or("no line")?;
    check_eq(first, line)?;
    check_eq(left, rest)
}

#[test]
fn lines(rt: HostRuntime) -> Result<(), Fail> {
    assert!(rt; next_line(b"").is_none());
    cuts(b"\n", b"", b"")?;
    cuts(b"a", b"a", b"")?;
    cuts(b"ab\n", b"ab", b"")?;
    cuts(b"a\r\nb", b"a\r", b"b")?;
    cuts(b"\n\n", b"", b"\n")
}

// Lines that end in a line feed, and one that does not.
#[test]
fn lines_in_turn(rt: HostRuntime) -> Result<(), Fail> {
    let mut lines = Lines(b"a\n\nb\n");
    assert_eq!(rt; lines.next(), Some(b"a".as_slice()));
    assert_eq!(rt; lines.next(), Some(b"".as_slice()));
    assert_eq!(rt; lines.next(), Some(b"b".as_slice()));
    assert_eq!(rt; lines.next(), None);
    assert_eq!(rt; Lines(b"a\nb").count(), 2);
    Ok(())
}

#[test]
fn orders(rt: HostRuntime) {
    assert_eq!(rt; Order::try_from(b"R 20".as_slice()), Ok(Order::Run(20)));
    assert_eq!(rt;
        Order::try_from(b"U 00031".as_slice()),
        Ok(Order::Raise(31))
    );
    assert_eq!(rt;
        Order::try_from(b"D 99999".as_slice()),
        Ok(Order::Drop(99_999))
    );
    let others: [&[u8]; 8] = [
        b"",
        b"R",
        b"R ",
        b"R 123456",
        b"R  1",
        b"u 2",
        b"R 1 ",
        b"R 1a",
    ];
    for line in others {
        assert_eq!(rt; Order::try_from(line), Err(NotUnderstood));
    }
}

// A row of the greatest numbers that its columns are wide enough for.
#[test]
fn widest_row(rt: HostRuntime) -> Result<(), Fail> {
    let row = RegisterRow {
        line: 999_999,
        steps: 999_999,
        cycles: 99_999_999,
        refusal: 255,
        pc: 65_535,
        a: 255,
        hx: 65_535,
        sp: 65_535,
        ccr: 255,
    };
    let mut text = Vec::new(rt.alloc());
    push_row(&mut text, &row)?;
    assert_eq!(rt;
        text.as_slice(),
        b"99999999999999999999255 65535 255 65535 65535 255\n".as_slice()
    );
    assert_eq!(rt;
        format!(in rt.alloc(); "{row}\n")?.as_str(),
        "99999999999999999999255 65535 255 65535 65535 255\n"
    );
    Ok(())
}
