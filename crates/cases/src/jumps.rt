// Jumps, subroutines and interrupts. The return address is pushed low byte first.
use crate::case::hold;
use std::test::Fail;

const SUBROUTINES: &[&str] = &[
    // JMP
    "00 0000 00FF 8000 FF | BC 50 | | 00 0000 00FF 0050 FF | | 2 3",
    "00 0000 00FF 8000 60 | CC 12 34 | | 00 0000 00FF 1234 60 | | 3 4",
    "00 FFFF 00FF 8000 60 | DC 00 11 | | 00 FFFF 00FF 0010 60 | | 4 4",
    "00 1200 00FF 8000 60 | EC FF | | 00 1200 00FF 12FF 60 | | 3 3",
    "00 4321 00FF 8000 60 | FC | | 00 4321 00FF 4321 60 | | 2 3",
    // JSR, the third and fifth with a stack that goes past 0, and the last with its own operand overwritten
    "00 0000 00FF 8000 60 | BD 50 | | 00 0000 00FD 0050 60 | 00FF=02 00FE=80 | 4 5",
    "00 0000 00FF 8000 60 | CD 12 34 | | 00 0000 00FD 1234 60 | 00FF=03 00FE=80 | 5 6",
    "00 1100 0000 8000 60 | DD 01 34 | | 00 1100 FFFE 1234 60 | 0000=03 FFFF=80 | 6 6",
    "00 1200 0200 80FE 60 | ED 34 | 0200=77 | 00 1200 01FE 1234 60 | 0200=00 01FF=81 | 5 5",
    "00 1234 0001 8000 60 | FD | | 00 1234 FFFF 1234 60 | 0001=01 0000=80 | 4 5",
    "00 0000 0102 0100 60 | CD 12 34 | | 00 0000 0100 1234 60 | 0102=03 0101=01 | 5 6",
    // BSR
    "00 0000 00FF 8000 60 | AD 10 | | 00 0000 00FD 8012 60 | 00FF=02 00FE=80 | 4 5",
    "00 0000 00FF 0000 60 | AD F0 | 00FE=77 | 00 0000 00FD FFF2 60 | 00FF=02 00FE=00 | 4 5",
    // RTS
    "00 0000 00FD 8000 60 | 81 | 00FE=12 00FF=34 | 00 0000 00FF 1234 60 | | 4 6",
    "00 0000 FFFE 8000 60 | 81 | FFFF=12 0000=34 | 00 0000 0000 1234 60 | | 4 6",
];

// The frame is PC, X, A and the condition codes of before, and H is not in it. The vector of SWI stands at $FFFC.
const INTERRUPTS: &[&str] = &[
    // SWI, the last with its frame over the vector
    "78 9A56 00FF 8000 E5 | 83 | FFFC=AB FFFD=CD | 78 9A56 00FA ABCD ED | 00FF=01 00FE=80 00FD=56 00FC=78 00FB=E5 | 9 11",
    "11 2233 0002 1234 60 | 83 | FFFC=00 FFFD=10 | 11 2233 FFFD 0010 68 | 0002=35 0001=12 0000=33 FFFF=11 FFFE=60 | 9 11",
    "AB 00CD FFFF 8000 60 | 83 | FFFC=11 FFFD=22 | AB 00CD FFFA ABCD 68 | FFFF=01 FFFE=80 FFFD=CD FFFC=AB FFFB=60 | 9 11",
    // RTI
    "00 9900 00FA 8000 68 | 80 | 00FB=85 00FC=78 00FD=56 00FE=12 00FF=34 | 78 9956 00FF 1234 E5 | | 7 9",
    "00 0000 FFFD 8000 60 | 80 | FFFE=FF FFFF=01 0000=02 0001=03 0002=04 | 01 0002 0002 0304 FF | | 7 9",
];

#[test]
fn jumps(rt: HostRuntime) -> Result<(), Fail> {
    hold(rt.alloc(), SUBROUTINES)?;
    hold(rt.alloc(), INTERRUPTS)
}
