// The pointers: AIS and AIX, and H:X that goes on.
ghost use Rattle.std.specs.Prelude.{◌≡◌};
ghost use Rattle.effects.specs.Pointers.{displacing, goes_on, went_on};

use alu::addresses::displaced;
use isa::operation::Pointer;
use isa::row::Mode;
use state::registers::Registers;

// Moves a pointer by a signed byte. The kinds are closed: an arm each is plainer than a table.
pub fn displace(pointer: Pointer, offset: u8, registers: &mut Registers)
    ensures { registers.new ≡ displacing pointer offset registers.old }
{
    match pointer {
        Pointer::Ais => registers.sp = displaced(registers.sp, offset),
        Pointer::Aix => registers.put_hx(displaced(registers.hx(), offset)),
    }
}

// Whether H:X goes on by 1. Four of the eighteen modes say so: a match with an arm each would name the other fourteen.
fn goes_on(mode: Mode) -> bool
    ensures { result ≡ goes_on mode }
{
    matches!(
        mode,
        Mode::IndexedPlus | Mode::Indexed1Plus | Mode::DirectIndexedPlus | Mode::IndexedPlusDirect
    )
}

// H:X goes on by 1, in the modes that say so.
pub fn go_on(mode: Mode, registers: &mut Registers)
    ensures { registers.new ≡ went_on mode registers.old }
{
    if goes_on(mode) {
        registers.put_hx(registers.hx().wrapping_add(1));
    }
}
