// Short programs on both cores.
use crate::printed::answers;
use std::test::Fail;

// LDA #$FF, ADD #1; LDA #$19, ADD #$28, DAA; LDHX #$012C, LDA #5, MUL; LDX #9, DIV, NSA, TAX; TAP, TPA, SEI; AIS #-16;
// RSP, TSX, AIX #-128, TXS; CPHX #$0081, BCS over a byte; LDHX #$1235, TXS, RSP; BGND. A run for each part.
const TOUR: &[&str] = &[
    "S11A8000A6FFAB01A619AB287245012CA60542AE0952629784859B0B",
    "S1168017A7F09C95AF8094650081250100451235949C827D",
    "S105FFFE80007D",
    "S9030000FC",
    "R 2",
    "R 3",
    "R 3",
    "R 4",
    "R 3",
    "R 1",
    "R 4",
    "R 2",
    "R 3",
    "R 2",
];

// $FF + 1 leaves H, Z and C. 19 + 28 is 47 in decimal digits. 44 * 5 is 220, and H is still 1. $01DC / 9 is 52, the rest
// 8; $34 turned round is $43. Of $43, TAP takes Z and C, and TPA reads $63. $80 - $81 leaves N and C. RSP keeps SP's
// high byte. BGND takes 5 cycles on the HCS08, and is no instruction of the CPU08.
#[test]
fn tour(rt: HostRuntime) -> Result<(), Fail> {
    let heap = rt.alloc();
    let on_hcs08 = [
        "     6     2       4  0 32772   0     0   255 123",
        "     7     3       5  0 32777  71     0   255 120",
        "     8     3      10  0 32783 220   256   255 104",
        "     9     4      10  0 32788  67  2115   255 104",
        "    10     3       3  0 32791  99  2115   255 107",
        "    11     1       2  0 32793  99  2115   239 107",
        "    12     4       7  0 32798  99   128   127 107",
        "    13     2       6  0 32804  99   128   127 109",
        "    14     3       6  0 32809  99  4661  4863 105",
        "    15     1       5 30 32810  99  4661  4863 105",
    ];
    answers(heap, "H", TOUR, &on_hcs08)?;
    let on_cpu08 = [
        "     6     2       4  0 32772   0     0   255 123",
        "     7     3       6  0 32777  71     0   255 120",
        "     8     3      10  0 32783 220   256   255 104",
        "     9     4      13  0 32788  67  2115   255 104",
        "    10     3       5  0 32791  99  2115   255 107",
        "    11     1       2  0 32793  99  2115   239 107",
        "    12     4       7  0 32798  99   128   127 107",
        "    13     2       6  0 32804  99   128   127 109",
        "    14     3       6  0 32809  99  4661  4863 105",
        "    15     1       0 30 32809  99  4661  4863 105",
    ];
    answers(heap, "K", TOUR, &on_cpu08)
}

// Addresses go round: LDA stands at $FFFF and its operand at 0, and a branch at 0 leads back to 2 - 128. A byte that is
// no instruction halts in a step of no cycles. BRA to itself takes 3 cycles, 65,535 times.
#[test]
fn edges(rt: HostRuntime) -> Result<(), Fail> {
    let heap = rt.alloc();
    answers(
        heap,
        "H",
        &[
            "S1050000428E2A",
            "S105FFA62057DE",
            "S105FFFEFFA658",
            "S9030000FC",
            "R 2",
            "R 9",
        ],
        &[
            "     6     2       5  0     1  66     0   255 104",
            "     7     1       2 32     2  66     0   255  96",
        ],
    )?;
    answers(
        heap,
        "K",
        &[
            "S105000020805A",
            "S9030000FC",
            "R 1",
            "R 9",
            "R 0",
            "U 2",
            "R 1",
        ],
        &[
            "     4     1       3  0 65410   0     0   255 104",
            "     5     1       0 30 65410   0     0   255 104",
            "     6     0       0  0 65410   0     0   255 104",
            "     7     0       0  0 65410   0     0   255 104",
            "     8     0       0 30 65410   0     0   255 104",
        ],
    )?;
    answers(
        heap,
        "H",
        &["S105800020FE5C", "S105FFFE80007D", "S9030000FC", "R 65535"],
        &["     5 65535  196605  0 32768   0     0   255 104"],
    )?;
    answers(
        heap,
        "K",
        &["S9030000FC", "R 1"],
        &["     3     1       0  0     0   0     0   255 104"],
    )
}
