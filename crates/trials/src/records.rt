// The first line, and the record lines.
use crate::printed::{answers, prints};
use std::test::Fail;

// LDA #5, then DECA and BNE five times, then STOP.
const COUNTDOWN: &[&str] = &[
    "S1098000A6054A26FD8ED0",
    "S105FFFE80007D",
    "S9030000FC",
    "R 20",
];

// 1 + 5 * 2 + 1 steps take 2 + 5 * (1 + 3) cycles, and for STOP 2, but 1 on the CPU08. The last DECA leaves Z.
#[test]
fn counts_down(rt: HostRuntime) -> Result<(), Fail> {
    let heap = rt.alloc();
    let on_hcs08 = ["     5    12      24 32 32774   0     0   255  98"];
    answers(heap, "H", COUNTDOWN, &on_hcs08)?;
    answers(
        heap,
        "K",
        COUNTDOWN,
        &["     5    12      23 32 32774   0     0   255  98"],
    )?;
    let unended = b"H\nS1098000A6054A26FD8ED0\nS105FFFE80007D\nS9030000FC\nR 20";
    prints(heap, unended, &on_hcs08)
}

// A first line that names no core is answered, and nothing after it.
#[test]
fn first_lines(rt: HostRuntime) -> Result<(), Fail> {
    let heap = rt.alloc();
    let refused = ["     1     0       0 36     0   0     0     0   0"];
    for first in ["", "X", "h", "k", "K ", " H", "H\r", "HK"] {
        answers(heap, first, COUNTDOWN, &refused)?;
    }
    prints(heap, b"\n", &refused)?;
    prints(heap, b"X", &refused)?;
    prints(heap, b"", &[])?;
    prints(heap, b"H", &[])?;
    prints(heap, b"K\n", &[])
}

// An image, lines that would change it, and what is taken in silence: a header, and data of no byte and of the last one.
const LOADING: &[&str] = &[
    "S1098000a6054a26fd8ed0",
    "S105FFFE80007D",
    "",
    "S903000FC",
    "s9030000FC",
    "R 20",
    "S2030000FC",
    "S8G30000FC",
    "S9030000FC\r",
    "S1048000G0",
    "S9030000FC0",
    "S9020000FD",
    "S9040000AB50",
    "S1048000FF",
    "S9030000FB",
    "S1048000FF7D",
    "S106FFFE9000006D",
    "S106FFFE9000006C",
    "S00600004844521B",
    "S1030000FC",
    "S104FFFF00FD",
    "S9030000fc",
    "R 20",
];

// Short lines, one that begins with another letter and an order; kinds; digits; lengths, an end record with data among
// them; checksums, one of data past the end among them; and data past the end. The image then runs as it was loaded.
#[test]
fn refused_records(rt: HostRuntime) -> Result<(), Fail> {
    answers(
        rt.alloc(),
        "H",
        LOADING,
        &[
            "     4     0       0 11     0   0     0     0   0",
            "     5     0       0 11     0   0     0     0   0",
            "     6     0       0 11     0   0     0     0   0",
            "     7     0       0 11     0   0     0     0   0",
            "     8     0       0 12     0   0     0     0   0",
            "     9     0       0 12     0   0     0     0   0",
            "    10     0       0 13     0   0     0     0   0",
            "    11     0       0 13     0   0     0     0   0",
            "    12     0       0 14     0   0     0     0   0",
            "    13     0       0 14     0   0     0     0   0",
            "    14     0       0 14     0   0     0     0   0",
            "    15     0       0 14     0   0     0     0   0",
            "    16     0       0 15     0   0     0     0   0",
            "    17     0       0 15     0   0     0     0   0",
            "    18     0       0 15     0   0     0     0   0",
            "    19     0       0 16     0   0     0     0   0",
            "    24    12      24 32 32774   0     0   255  98",
        ],
    )
}
