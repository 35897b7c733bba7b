// Opcodes of the first set: what they cost.
use crate::costs::{Group, counted, known};
use isa::first_set::FirstSet;
use isa::model::Model;
use isa::row::Page;
use std::test::Fail;

// Opcodes with their bytes, and their cycles on the CPU08 and the HCS08; 0 where the core has no such instruction.
const COSTS: &[Group] = &[
    // branches
    (
        "20 21 22 23 24 25 26 27 28 29 2A 2B 2C 2D 2E 2F 90 91 92 93",
        2,
        3,
        3,
    ),
    // A, X, SP or H:X with an operand byte
    ("A0 A1 A2 A3 A4 A5 A6 A7 A8 A9 AA AB AE AF", 2, 2, 2),
    // LDHX and CPHX
    ("45 65", 3, 3, 3),
    // changes of A and X
    (
        "40 43 44 46 47 48 49 4A 4C 4D 4F 50 53 54 56 57 58 59 5A 5C 5D 5F",
        1,
        1,
        1,
    ),
    // TPA, CLRH, TAX, CLC, SEC, RSP, NOP and TXA
    ("85 8C 97 98 99 9C 9D 9F", 1, 1, 1),
    // TXS and TSX
    ("94 95", 1, 2, 2),
    // DAA, TAP, CLI and SEI
    ("72 84 9A 9B", 1, 2, 1),
    // STOP and WAIT
    ("8E 8F", 1, 1, 2),
    // MUL, DIV and NSA
    ("42", 1, 5, 5),
    ("52", 1, 7, 6),
    ("62", 1, 3, 1),
    // BGND
    ("82", 1, 0, 5),
];

// The table has 77 opcodes of both cores, and BGND is the HCS08's alone.
#[test]
fn costs(rt: HostRuntime) -> Result<(), Fail> {
    let cpu08 = FirstSet(Model::Cpu08);
    let hcs08 = FirstSet(Model::Hcs08);
    assert_eq!(rt; counted(&cpu08, Model::Cpu08, Page::First, COSTS)?, 77);
    assert_eq!(rt; counted(&hcs08, Model::Hcs08, Page::First, COSTS)?, 78);
    assert_eq!(rt; known(&cpu08, Page::First), 77);
    assert_eq!(rt; known(&hcs08, Page::First), 78);
    assert_eq!(rt; known(&cpu08, Page::Second), 0);
    assert_eq!(rt; known(&hcs08, Page::Second), 0);
    Ok(())
}
