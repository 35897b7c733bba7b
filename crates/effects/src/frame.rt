// What RTI finds on the stack.
ghost use Rattle.std.specs.Prelude.{◌≡◌};
ghost use Rattle.effects.specs.Frame.{restored};

use alu::flags::Flags;
use state::registers::Registers;

// The condition codes, A, X and the program counter that an interrupt request pushed. H is not among them.
#[derive(Clone, Copy)]
pub struct Frame {
    pub codes: u8,
    pub a: u8,
    pub x: u8,
    pub pc: u16,
}

// The registers become those of the frame, which leaves the stack.
pub fn restore(frame: Frame, registers: &mut Registers)
    ensures { registers.new ≡ restored frame registers.old }
{
    registers.flags = Flags::from(frame.codes);
    registers.a = frame.a;
    registers.x = frame.x;
    registers.pc = frame.pc;
    registers.sp = registers.sp.wrapping_add(5);
}
