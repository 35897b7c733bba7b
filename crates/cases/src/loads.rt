// A register and an operand byte.
use crate::case::hold;
use std::test::Fail;

// Each operation, and each of the eight modes. The operand is the cell $1234 where the mode reaches it, and sums of
// addresses go round at 65,536.
const COMBINES: &[&str] = &[
    // ADD and ADC
    "12 3456 00FF 8000 68 | AB 0E | | 20 3456 00FF 8002 78 | | 2 2",
    "7F 0000 00FF 8000 60 | BB 50 | 0050=01 | 80 0000 00FF 8002 F4 | | 3 3",
    "FF 0000 00FF 8000 61 | C9 12 34 | 1234=00 | 00 0000 00FF 8003 73 | | 4 4",
    "80 1100 00FF 8000 71 | D9 01 34 | 1234=80 | 01 1100 00FF 8003 E1 | | 4 4",
    // SUB and SBC
    "50 1200 00FF 8000 FA | E0 34 | 1234=60 | F0 1200 00FF 8002 7D | | 3 3",
    "80 1234 00FF 8000 61 | F2 | 1234=00 | 7F 1234 00FF 8001 E0 | | 2 3",
    "00 0000 00FF 8000 61 | A2 FF | | 00 0000 00FF 8002 63 | | 2 2",
    // CMP and CPX
    "12 0000 0100 8000 61 | 9E D1 11 34 | 1234=12 | 12 0000 0100 8004 62 | | 5 5",
    "7F 0100 00FF 8000 60 | F1 | 0100=FF | 7F 0100 00FF 8001 E5 | | 2 3",
    "99 7701 1200 8000 60 | 9E E3 34 | 1234=02 | 99 7701 1200 8003 65 | | 4 4",
    // AND, BIT, EOR and ORA
    "F0 0000 0200 8000 F3 | B4 FF | 00FF=8F | 80 0000 0200 8002 75 | | 3 3",
    "0F 0000 00FF 8000 E5 | C5 80 50 | 8050=F0 | 0F 0000 00FF 8003 63 | | 4 4",
    "FF FFFF 00FF 8000 E4 | E8 02 | 0001=FF | 00 FFFF 00FF 8002 62 | | 3 3",
    "0F 0080 00FF 8000 E6 | FA | 0080=70 | 7F 0080 00FF 8001 60 | | 2 3",
    // LDA and LDX
    "00 FF00 00FF 8000 E3 | D6 02 00 | 0100=80 | 80 FF00 00FF 8003 65 | | 4 4",
    "00 0000 8001 9000 66 | 9E D6 80 00 | 0001=7E | 7E 0000 8001 9004 60 | | 5 5",
    "5A 12FF FFFE 8000 60 | 9E EE 03 | 0001=81 | 5A 1281 FFFE 8003 64 | | 4 4",
    "11 22FF 00FF 8000 E9 | AE 00 | | 11 2200 00FF 8002 6B | | 2 2",
    // LDA and SUB whose last byte stands at 0
    "00 0000 00FF FFFE 62 | C6 01 23 | 0123=45 | 45 0000 00FF 0001 60 | | 4 4",
    "00 0000 0100 FFFD 60 | 9E D0 00 10 | 0110=01 | FF 0000 0100 0001 65 | | 5 5",
];

#[test]
fn combines(rt: HostRuntime) -> Result<(), Fail> {
    hold(rt.alloc(), COMBINES)
}
