// LDHX, CPHX and STHX on H:X.
ghost use Rattle.std.specs.Prelude.{◌≡◌};
ghost use Rattle.alu.specs.Sums.{Compared};
ghost use Rattle.state.specs.Registers.{hx};
ghost use Rattle.effects.specs.Index.{index_loaded, index_compared, index_tested};

use alu::sums::subtract;
use state::registers::Registers;

// H:X becomes a word, which is tested.
pub fn load_index(word: u16, registers: &mut Registers)
    ensures { registers.new ≡ index_loaded word registers.old }
{
    registers.put_hx(word);
    registers.test(word);
}

// The flags order H:X and a word.
pub fn compare_index(word: u16, registers: &mut Registers)
    ensures value { registers.new ≡ index_compared word registers.old }
    ensures compared { Compared 16 (hx registers.old) word registers.new.flags }
{
    (_, registers.flags) = subtract(registers.hx(), word, false, registers.flags);
}

// H:X is tested.
pub fn test_index(registers: &mut Registers)
    ensures { registers.new ≡ index_tested registers.old }
{
    registers.test(registers.hx());
}
