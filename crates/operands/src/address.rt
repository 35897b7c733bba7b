// The addressing modes.
ghost use Rattle.std.specs.Prelude.{◌≡◌};
ghost use Rattle.access.specs.Access.{perform};
ghost use Rattle.operands.specs.Address.{reached, behind, home_of};

use access::cells::read_cell;
use access::fault::Fault;
use access::words::read_word;
use alu::addresses::displaced;
use bus::traits::Bus;
use isa::row::Mode;
use state::registers::Registers;

// An operand, once it was found: the mode, where the operand bytes begin, and the operand's address.
#[derive(Clone, Copy)]
pub struct Operand {
    pub mode: Mode,
    pub bytes: u16,
    pub address: u16,
}

// Where an operand lies.
#[derive(Clone, Copy)]
pub enum Home {
    Accumulator,
    // the index register's low byte
    Index,
    Memory,
}

impl Operand {
    // Where the byte stands that follows the operand's address. Three modes have two address bytes, seven have one, and the other
    // eight have none: three arms are plainer than a table of eighteen rows.
    pub fn behind(self) -> u16
        ensures { result ≡ behind self }
    {
        match self.mode {
            Mode::Extended | Mode::Indexed2 | Mode::Stack2 => self.bytes.wrapping_add(2),
            Mode::Direct
            | Mode::DirectDirect
            | Mode::DirectIndexedPlus
            | Mode::Indexed1
            | Mode::Indexed1Plus
            | Mode::Stack1
            | Mode::Relative => self.bytes.wrapping_add(1),
            _ => self.bytes,
        }
    }

    // Where the operand lies.
    pub fn home(self) -> Home
        ensures { result ≡ home_of self.mode }
    {
        home_of(self.mode)
    }
}

// Where the operand of a mode lies. Two modes name a register, and for the other sixteen the answer is memory: a table would say so sixteen
// times.
pub fn home_of(mode: Mode) -> Home
    ensures { result ≡ home_of mode }
{
    match mode {
        Mode::InherentA => Home::Accumulator,
        Mode::InherentX => Home::Index,
        _ => Home::Memory,
    }
}

// The address of the operand, by the operand bytes that begin at `at`. The program counter is at the next instruction. The kinds are
// closed: arms that name them all are plainer than a table. `bus, registers`: no register changes, so that this is no call of a
// `Processor`.
pub fn operand_address<B: Bus>(
    bus: &mut B,
    mode: Mode,
    at: u16,
    registers: &Registers,
) -> Result<u16, Fault>
    ensures { (result, B.cells bus.new) ≡ perform (reached mode at registers.now) (B.cells bus.old) }
{
    match mode {
        Mode::Inherent
        | Mode::InherentA
        | Mode::InherentX
        | Mode::Immediate
        | Mode::ImmediateDirect => Ok(at),
        Mode::Direct | Mode::DirectDirect | Mode::DirectIndexedPlus => {
            Ok(u16::from(read_cell(bus, at)?))
        }
        Mode::Extended => read_word(bus, at),
        Mode::Indexed2 => Ok(registers.hx().wrapping_add(read_word(bus, at)?)),
        Mode::Indexed1 | Mode::Indexed1Plus => {
            Ok(registers.hx().wrapping_add(u16::from(read_cell(bus, at)?)))
        }
        Mode::Indexed | Mode::IndexedPlus | Mode::IndexedPlusDirect => Ok(registers.hx()),
        Mode::Stack2 => Ok(registers.sp.wrapping_add(read_word(bus, at)?)),
        Mode::Stack1 => Ok(registers.sp.wrapping_add(u16::from(read_cell(bus, at)?))),
        Mode::Relative => Ok(displaced(registers.pc, read_cell(bus, at)?)),
    }
}
