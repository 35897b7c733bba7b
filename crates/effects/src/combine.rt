// A register combined with an operand byte.
ghost use Rattle.std.specs.Prelude.{◌≡◌};
ghost use Rattle.effects.specs.Combine.{combined};
ghost use Rattle.effects.specs.Order.{ComparesByte};

use alu::logic::{and, exclusive_or, or, test};
use alu::sums::{add, subtract};
use isa::operation::RegisterMemory;
use state::registers::Registers;

// After CMP and CPX the flags order A, or X, and the byte. The kinds are closed: an arm each is plainer than a table.
pub fn combine(operation: RegisterMemory, byte: u8, registers: &mut Registers)
    ensures value { registers.new ≡ combined operation byte registers.old }
    ensures compared { ComparesByte operation byte registers.old registers.new.flags }
{
    let Registers { a, flags, .. } = *registers;
    match operation {
        RegisterMemory::Sub => (registers.a, registers.flags) = subtract(a, byte, false, flags),
        RegisterMemory::Cmp => (_, registers.flags) = subtract(a, byte, false, flags),
        RegisterMemory::Sbc => (registers.a, registers.flags) = subtract(a, byte, flags.c, flags),
        RegisterMemory::Cpx => (_, registers.flags) = subtract(registers.x, byte, false, flags),
        RegisterMemory::And => (registers.a, registers.flags) = and(a, byte, flags),
        RegisterMemory::Bit => (_, registers.flags) = and(a, byte, flags),
        RegisterMemory::Lda => (registers.a, registers.flags) = test(byte, flags),
        RegisterMemory::Eor => (registers.a, registers.flags) = exclusive_or(a, byte, flags),
        RegisterMemory::Adc => (registers.a, registers.flags) = add(a, byte, flags.c, flags),
        RegisterMemory::Ora => (registers.a, registers.flags) = or(a, byte, flags),
        RegisterMemory::Add => (registers.a, registers.flags) = add(a, byte, false, flags),
        RegisterMemory::Ldx => (registers.x, registers.flags) = test(byte, flags),
    }
}
