// The instructions that touch registers and flags alone.
ghost use Rattle.std.specs.Prelude.{◌≡◌};
ghost use Rattle.effects.specs.RegisterOnly.{registered};

use alu::decimal::decimal_adjust;
use alu::flags::Flags;
use alu::logic::test;
use alu::products::{divide, multiply};
use alu::unary::swap_nibbles;
use alu::words::word;
use isa::operation::RegisterOnly;
use state::registers::Registers;

// What an operation on registers and flags alone leaves. The kinds are closed: an arm each is plainer than a table.
pub fn register_only(operation: RegisterOnly, registers: &mut Registers)
    ensures { registers.new ≡ registered operation registers.old }
{
    let Registers { a, h, x, flags, .. } = *registers;
    match operation {
        // X:A is the product
        RegisterOnly::Mul => ((registers.x, registers.a), registers.flags) = multiply(x, a, flags),
        // the quotient goes to A, the remainder to H
        RegisterOnly::Div => {
            ((registers.a, registers.h), registers.flags) = divide(h, a, x, flags)
        }
        RegisterOnly::Nsa => registers.a = swap_nibbles(a),
        RegisterOnly::Daa => (registers.a, registers.flags) = decimal_adjust(a, flags),
        RegisterOnly::Tap => registers.flags = Flags::from(a),
        RegisterOnly::Tpa => registers.a = u8::from(flags),
        RegisterOnly::Clrh => (registers.h, registers.flags) = test(0, flags),
        RegisterOnly::Txs => registers.sp = registers.hx().wrapping_sub(1),
        RegisterOnly::Tsx => registers.put_hx(registers.sp.wrapping_add(1)),
        RegisterOnly::Tax => registers.x = a,
        RegisterOnly::Txa => registers.a = x,
        RegisterOnly::Clc => registers.flags.c = false,
        RegisterOnly::Sec => registers.flags.c = true,
        RegisterOnly::Cli => registers.flags.i = false,
        RegisterOnly::Sei => registers.flags.i = true,
        RegisterOnly::Rsp => registers.sp = word(registers.sp.to_be_bytes()[0], 0xFF),
        RegisterOnly::Nop => {}
    }
}
