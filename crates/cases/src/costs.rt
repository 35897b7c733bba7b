// What every opcode costs.
use crate::check::check_eq;
use isa::core08::Core;
use isa::model::Model;
use isa::row::Page;
use std::test::Fail;

// Opcodes with their bytes, and their cycles on the CPU08 and the HCS08; 0 where the core has no such instruction.
pub(crate) type Group = (&'static str, u8, u8, u8);

const FIRST: &[Group] = &[
    // BRSET and BRCLR; BSET and BCLR; branches
    ("00 01 02 03 04 05 06 07 08 09 0A 0B 0C 0D 0E 0F", 3, 5, 5),
    ("10 11 12 13 14 15 16 17 18 19 1A 1B 1C 1D 1E 1F", 2, 4, 5),
    ("20 21 22 23 24 25 26 27 28 29 2A 2B 2C 2D 2E 2F", 2, 3, 3),
    ("90 91 92 93", 2, 3, 3),
    // NEG, COM, LSR, ROR, ASR, LSL, ROL, DEC and INC; TST and CLR of A and X with them
    ("30 33 34 36 37 38 39 3A 3C", 2, 4, 5),
    ("40 43 44 46 47 48 49 4A 4C 4D 4F", 1, 1, 1),
    ("50 53 54 56 57 58 59 5A 5C 5D 5F", 1, 1, 1),
    ("60 63 64 66 67 68 69 6A 6C", 2, 4, 5),
    ("70 73 74 76 77 78 79 7A 7C", 1, 3, 4),
    // TST and CLR
    ("3D 6D", 2, 3, 4),
    ("7D", 1, 2, 3),
    ("3F 6F", 2, 3, 5),
    ("7F", 1, 2, 4),
    // CBEQ and DBNZ
    ("31 61", 3, 5, 5),
    ("41 51", 3, 4, 4),
    ("71", 2, 4, 5),
    ("3B 6B", 3, 5, 7),
    ("4B 5B", 2, 3, 4),
    ("7B", 2, 4, 6),
    // MUL, DIV and NSA; DAA, TAP, CLI and SEI
    ("42", 1, 5, 5),
    ("52", 1, 7, 6),
    ("62", 1, 3, 1),
    ("72 84 9A 9B", 1, 2, 1),
    // LDHX and CPHX; STHX and LDHX; CPHX
    ("45 65", 3, 3, 3),
    ("35 55", 2, 4, 4),
    ("75", 2, 4, 5),
    // MOV
    ("4E", 3, 5, 5),
    ("5E 7E", 2, 4, 5),
    ("6E", 3, 4, 4),
    // RTI, RTS and SWI
    ("80", 1, 7, 9),
    ("81", 1, 4, 6),
    ("83", 1, 9, 11),
    // pulls; pushes, TXS and TSX; STOP and WAIT; TPA, CLRH, TAX, CLC, SEC, RSP, NOP and TXA
    ("86 88 8A", 1, 2, 3),
    ("87 89 8B 94 95", 1, 2, 2),
    ("8E 8F", 1, 1, 2),
    ("85 8C 97 98 99 9C 9D 9F", 1, 1, 1),
    // a register and an operand byte, by mode; AIS and AIX; STA and STX at H:X
    ("A0 A1 A2 A3 A4 A5 A6 A7 A8 A9 AA AB AE AF", 2, 2, 2),
    ("B0 B1 B2 B3 B4 B5 B6 B7 B8 B9 BA BB BE BF", 2, 3, 3),
    ("C0 C1 C2 C3 C4 C5 C6 C7 C8 C9 CA CB CE CF", 3, 4, 4),
    ("D0 D1 D2 D3 D4 D5 D6 D7 D8 D9 DA DB DE DF", 3, 4, 4),
    ("E0 E1 E2 E3 E4 E5 E6 E7 E8 E9 EA EB EE EF", 2, 3, 3),
    ("F0 F1 F2 F3 F4 F5 F6 F8 F9 FA FB FE", 1, 2, 3),
    ("F7 FF", 1, 2, 2),
    // JMP
    ("BC", 2, 2, 3),
    ("CC", 3, 3, 4),
    ("DC", 3, 4, 4),
    ("EC", 2, 3, 3),
    ("FC", 1, 2, 3),
    // BSR and JSR
    ("AD BD", 2, 4, 5),
    ("CD", 3, 5, 6),
    ("DD", 3, 6, 6),
    ("ED", 2, 5, 5),
    ("FD", 1, 4, 5),
    // BGND; LDHX and STHX; CPHX
    ("82", 1, 0, 5),
    ("32 96", 3, 0, 5),
    ("3E", 3, 0, 6),
];

const SECOND: &[Group] = &[
    // NEG, COM, LSR, ROR, ASR, LSL, ROL, DEC and INC; TST; CLR
    ("60 63 64 66 67 68 69 6A 6C", 3, 5, 6),
    ("6D", 3, 4, 5),
    ("6F", 3, 4, 6),
    // CBEQ and DBNZ
    ("61", 4, 6, 6),
    ("6B", 4, 6, 8),
    // a register and an operand byte
    ("D0 D1 D2 D3 D4 D5 D6 D7 D8 D9 DA DB DE DF", 4, 5, 5),
    ("E0 E1 E2 E3 E4 E5 E6 E7 E8 E9 EA EB EE EF", 3, 4, 4),
    // LDHX in four modes; CPHX and STHX
    ("AE", 2, 0, 5),
    ("BE", 4, 0, 6),
    ("CE FE", 3, 0, 5),
    ("F3", 3, 0, 6),
    ("FF", 3, 0, 5),
];

// The bytes and cycles of an opcode that is an instruction.
fn cost<C: Core>(core: &C, page: Page, opcode: u8) -> Option<(u8, u8)> {
    core.row(page, opcode).map(|row| (row.bytes, row.cycles))
}

// How many opcodes are instructions.
pub(crate) fn known<C: Core>(core: &C, page: Page) -> usize {
    (0..=255)
        .filter(|opcode| core.row(page, *opcode).is_some())
        .count()
}

// Checks the opcodes of a group, and answers how many of them a core has.
fn counted_in<C: Core>(core: &C, model: Model, page: Page, group: Group) -> Result<usize, Fail> {
    let (opcodes, bytes, on_cpu08, on_hcs08) = group;
    let cycles = match model {
        Model::Cpu08 => on_cpu08,
        Model::Hcs08 => on_hcs08,
    };
    let expected = (cycles != 0).then_some((bytes, cycles));
    for opcode in opcodes.split_whitespace() {
        let opcode = u8::from_str_radix(opcode, 16)?;
        check_eq(cost(core, page, opcode), expected, opcode)?;
    }
    if cycles == 0 {
        return Ok(0);
    }
    Ok(opcodes.split_whitespace().count())
}

// Checks the opcodes of groups by the cycles of a model, and answers how many of them a core has.
pub(crate) fn counted<C: Core>(
    core: &C,
    model: Model,
    page: Page,
    groups: &[Group],
) -> Result<usize, Fail> {
    groups.iter().try_fold(0usize, |count, group| {
        Ok(count.wrapping_add(counted_in(core, model, page, *group)?))
    })
}

// The groups have each opcode that is an instruction, and no other is one.
#[test]
fn costs(rt: HostRuntime) -> Result<(), Fail> {
    assert_eq!(rt;
        counted(&Model::Cpu08, Model::Cpu08, Page::First, FIRST)?,
        249
    );
    assert_eq!(rt;
        counted(&Model::Cpu08, Model::Cpu08, Page::Second, SECOND)?,
        41
    );
    assert_eq!(rt;
        counted(&Model::Hcs08, Model::Hcs08, Page::First, FIRST)?,
        253
    );
    assert_eq!(rt;
        counted(&Model::Hcs08, Model::Hcs08, Page::Second, SECOND)?,
        47
    );
    assert_eq!(rt; known(&Model::Cpu08, Page::First), 249);
    assert_eq!(rt; known(&Model::Cpu08, Page::Second), 41);
    assert_eq!(rt; known(&Model::Hcs08, Page::First), 253);
    assert_eq!(rt; known(&Model::Hcs08, Page::Second), 47);
    Ok(())
}
