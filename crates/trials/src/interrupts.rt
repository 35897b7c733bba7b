// Interrupt requests.
use crate::printed::answers;
use std::test::Fail;

// WAIT in a loop; line 2 leads to INCA and STOP, and line 3 to INCX and BRA to itself.
const WAITING: &[&str] = &[
    "S10680008F20FDCD",
    "S10590004C8E90",
    "S10690105C20FEDF",
    "S107FFF890109000D1",
    "S105FFFE80007D",
    "S9030000FC",
    "R 4",
    "U 3",
    "U 2",
    "R 1",
    "R 1",
    "D 2",
    "R 1",
    "R 2",
    "R 10",
];

// WAIT, and three cycles that pass. The lower line is entered, 5 bytes down the stack and with I set; its line stays
// raised, and waits for STOP to clear I. The other is then entered out of STOP.
#[test]
fn waits(rt: HostRuntime) -> Result<(), Fail> {
    let heap = rt.alloc();
    let on_hcs08 = [
        "     8     4       5  0 32769   0     0   255  96",
        "     9     0       0  0 32769   0     0   255  96",
        "    10     0       0  0 32769   0     0   255  96",
        "    11     1      11  0 36864   0     0   250 104",
        "    12     1       1  0 36865   1     0   250 104",
        "    13     0       0  0 36865   1     0   250 104",
        "    14     1       2  0 36866   1     0   250  96",
        "    15     2      12  0 36881   1     1   245 104",
        "    16    10      30  0 36881   1     1   245 104",
    ];
    answers(heap, "H", WAITING, &on_hcs08)?;
    let on_cpu08 = [
        "     8     4       4  0 32769   0     0   255  96",
        "     9     0       0  0 32769   0     0   255  96",
        "    10     0       0  0 32769   0     0   255  96",
        "    11     1       9  0 36864   0     0   250 104",
        "    12     1       1  0 36865   1     0   250 104",
        "    13     0       0  0 36865   1     0   250 104",
        "    14     1       1  0 36866   1     0   250  96",
        "    15     2      10  0 36881   1     1   245 104",
        "    16    10      30  0 36881   1     1   245 104",
    ];
    answers(heap, "K", WAITING, &on_cpu08)
}

// NOP, CLI, NOP; line 31 leads to SEI and STOP.
const MASKED: &[&str] = &[
    "S10680009D9A9DA5",
    "S105A0009B8E31",
    "S105FFC0A0009B",
    "S105FFFE80007D",
    "S9030000FC",
    "U 31",
    "R 1",
    "R 1",
    "R 1",
    "R 2",
    "D 31",
    "R 1",
    "U 31",
    "R 1",
];

// A raised line waits while I is set, and is entered in the step after CLI.
#[test]
fn unmasks(rt: HostRuntime) -> Result<(), Fail> {
    answers(
        rt.alloc(),
        "K",
        MASKED,
        &[
            "     7     0       0  0 32768   0     0   255 104",
            "     8     1       1  0 32769   0     0   255 104",
            "     9     1       2  0 32770   0     0   255  96",
            "    10     1       9  0 40960   0     0   250 104",
            "    11     2       3  0 40962   0     0   250  96",
            "    12     0       0  0 40962   0     0   250  96",
            "    13     0       0 32 40962   0     0   250  96",
            "    14     0       0  0 40962   0     0   250  96",
            "    15     1       9  0 40960   0     0   245 104",
        ],
    )
}
