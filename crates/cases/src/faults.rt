// Instructions that meet a missing cell, or are none.
use crate::case::{fault, hold};
use std::test::Fail;

// Of 256 cells the first missing one is $0100. The registers stay as they were, and the stores that were
// made stand.
const MISSING: &[&str] = &[
    // the opcode, and the opcode after the prefix
    "11 2233 00FF 0100 60 | | |",
    "11 2233 00FF 00FF 60 | 9E | |",
    // operand bytes: LDA in three modes, BRA, BSET, MOV and JSR
    "11 2233 00FF 00FF 60 | A6 | |",
    "11 2233 00FF 00FE 60 | C6 00 | |",
    "11 2233 00FF 00FD 60 | 9E D6 00 | |",
    "11 2233 00FF 00FF 60 | 20 | |",
    "11 2233 00FF 00FF 60 | 10 | |",
    "11 2233 00FF 00FE 60 | 4E 50 | 0050=80 |",
    "11 2233 0080 00FE 60 | CD 00 | |",
    // offsets: BRSET, CBEQ, and DBNZ, which has stored nothing yet
    "11 2233 00FF 00FE 60 | 00 50 | 0050=01 |",
    "11 0050 00FF 00FF 60 | 71 | 0050=11 |",
    "11 2233 00FF 00FE 60 | 3B 50 | 0050=02 |",
    // reads: LDA, ADD, INC, TST, CBEQ, DBNZ, MOV, PULA
    "11 2233 00FF 0010 FF | C6 01 00 | |",
    "11 0100 00FF 0010 FF | FB | |",
    "11 00FF 00FF 0010 FF | 6C 01 | |",
    "11 0100 00FF 0010 FF | 7D | |",
    "11 0100 00FF 0010 60 | 71 20 | |",
    "11 0100 00FF 0010 60 | 7B 20 | |",
    "11 0100 00FF 0010 60 | 7E 50 | 0050=11 |",
    "11 2233 00FF 0010 60 | 86 | |",
    // the second byte of a word: LDHX, CPHX and RTS; and the program counter of RTI
    "11 2233 00FF 0010 60 | 55 FF | 00FF=99 |",
    "11 2233 00FF 0010 60 | 75 FF | 00FF=99 |",
    "11 2233 00FE 0010 60 | 81 | 00FF=99 |",
    "11 2233 00FC 0010 60 | 80 | 00FD=FF 00FE=FF 00FF=FF |",
    // stores: STA, CLR, MOV, PSHA, JSR
    "11 2233 00FF 0010 FF | C7 01 00 | |",
    "11 0100 00FF 0010 FF | 7F | |",
    "11 0100 00FF 0010 FF | 5E 50 | 0050=80 |",
    "11 2233 0100 0010 60 | 87 | |",
    "11 2233 0100 0010 60 | BD 50 | |",
    // a store that was made: STHX, JSR and BSR
    "11 2233 00FF 0010 60 | 35 FF | | 00FF=22",
    "11 2233 0000 0010 60 | BD 50 | | 0000=12",
    "11 2233 0000 0010 60 | AD 50 | | 0000=12",
    // SWI: three of its stores were made; all were made, and the vector is missing
    "78 9A56 0002 0010 E5 | 83 | 0001=77 | 0002=11 0001=00 0000=56",
    "78 9A56 00FF 0010 E5 | 83 | 00FE=77 | 00FF=11 00FE=00 00FD=56 00FC=78 00FB=E5",
];

// What is no instruction of either core.
const BLANK: &[&str] = &[
    "11 2233 00FF 8000 60 | 8D | | 11 2233 00FF 8000 60 | | 0 0",
    "11 2233 00FF 8000 60 | AC | | 11 2233 00FF 8000 60 | | 0 0",
    "11 2233 00FF 8000 60 | 9E 9E | | 11 2233 00FF 8000 60 | | 0 0",
    "11 2233 00FF 8000 60 | 9E 00 | | 11 2233 00FF 8000 60 | | 0 0",
    "11 2233 00FF 8000 60 | 9E 6E | | 11 2233 00FF 8000 60 | | 0 0",
    "11 2233 00FF 8000 60 | 9E DD | | 11 2233 00FF 8000 60 | | 0 0",
    "11 2233 00FF 8000 60 | 9E EC | | 11 2233 00FF 8000 60 | | 0 0",
];

#[test]
fn faults(rt: HostRuntime) -> Result<(), Fail> {
    fault(rt.alloc(), 256, MISSING)?;
    hold(rt.alloc(), BLANK)
}
