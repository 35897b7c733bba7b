// The operations, grouped as the opcode maps group them. Names are the mnemonics.

// When a branch is taken.
#[derive(Clone, Copy)]
pub enum Condition {
    Bra,
    Brn,
    Bhi,
    Bls,
    Bcc,
    Bcs,
    Bne,
    Beq,
    Bhcc,
    Bhcs,
    Bpl,
    Bmi,
    Bmc,
    Bms,
    Bil,
    Bih,
    Bge,
    Blt,
    Bgt,
    Ble,
}

// A bit of a byte, from the lowest.
#[derive(Clone, Copy)]
pub enum BitNumber {
    B0,
    B1,
    B2,
    B3,
    B4,
    B5,
    B6,
    B7,
}

// A branch on a bit of a memory byte.
#[derive(Clone, Copy)]
pub enum BitBranch {
    Brset(BitNumber),
    Brclr(BitNumber),
}

// A bit of a memory byte, set or cleared.
#[derive(Clone, Copy)]
pub enum BitChange {
    Bset(BitNumber),
    Bclr(BitNumber),
}

// A register combined with an operand byte.
#[derive(Clone, Copy)]
pub enum RegisterMemory {
    Sub,
    Cmp,
    Sbc,
    Cpx,
    And,
    Bit,
    Lda,
    Eor,
    Adc,
    Ora,
    Add,
    Ldx,
}

// A register stored.
#[derive(Clone, Copy)]
pub enum RegisterStore {
    Sta,
    Stx,
}

// A byte read, changed and put back where it came from. TST puts nothing back, CLR reads nothing.
#[derive(Clone, Copy)]
pub enum ReadModifyWrite {
    Neg,
    Com,
    Lsr,
    Ror,
    Asr,
    Lsl,
    Rol,
    Dec,
    Inc,
    Tst,
    Clr,
}

// A branch where A, or X, equals the operand byte.
#[derive(Clone, Copy)]
pub enum CompareBranch {
    Cbeq,
    Cbeqa,
    Cbeqx,
}

// H:X with an operand word.
#[derive(Clone, Copy)]
pub enum WordOperation {
    Ldhx,
    Cphx,
    Sthx,
}

// A pointer moved by a signed operand byte.
#[derive(Clone, Copy)]
pub enum Pointer {
    Ais,
    Aix,
}

// The program goes on elsewhere, with or without a way back.
#[derive(Clone, Copy)]
pub enum Jump {
    Jmp,
    Jsr,
    Bsr,
}

// The way back.
#[derive(Clone, Copy)]
pub enum Return {
    Rts,
    Rti,
}

// A register onto the stack, or from it.
#[derive(Clone, Copy)]
pub enum StackOperation {
    Psha,
    Pula,
    Pshx,
    Pulx,
    Pshh,
    Pulh,
}

// Registers and flags alone.
#[derive(Clone, Copy)]
pub enum RegisterOnly {
    Mul,
    Div,
    Nsa,
    Daa,
    Tap,
    Tpa,
    Clrh,
    Txs,
    Tsx,
    Tax,
    Txa,
    Clc,
    Sec,
    Cli,
    Sei,
    Rsp,
    Nop,
}

// The processor comes to rest.
#[derive(Clone, Copy)]
pub enum Standstill {
    Stop,
    Wait,
    Bgnd,
}

#[derive(Clone, Copy)]
pub enum Operation {
    Branch(Condition),
    BranchOnBit(BitBranch),
    ChangeBit(BitChange),
    Combine(RegisterMemory),
    Store(RegisterStore),
    Modify(ReadModifyWrite),
    CompareAndBranch(CompareBranch),
    // DBNZ
    DecrementAndBranch,
    // MOV
    Move,
    Word(WordOperation),
    Displace(Pointer),
    Transfer(Jump),
    GoBack(Return),
    // SWI
    SoftwareInterrupt,
    Stack(StackOperation),
    Register(RegisterOnly),
    Rest(Standstill),
}
