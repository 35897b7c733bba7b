// When a branch is taken.
ghost use Rattle.std.specs.Prelude.{◌≡◌, ℕ, ◌^◌, ◌<◌, ◌≤◌, true};
ghost use Rattle.alu.specs.Sums.{Compared};
ghost use Rattle.effects.specs.Branch.{taken, branched_to, branched_by};
ghost use Rattle.effects.specs.Order.{NamedOrder};

use alu::addresses::displaced;
use alu::flags::Flags;
use isa::operation::Condition;
use state::lines::is_raised;
use state::registers::Registers;

// Whether a branch is taken. After a comparison it is taken where the numbers stand in the order that the branch is named for. Of
// `condition, flags, lines` the instruction has the first, its registers the second and the board the third: they meet here.
#[tactic(auto, using(crate::proofs::Orders::ordered))]
pub fn is_taken(condition: Condition, flags: Flags, lines: u32) -> bool
    ensures value { result ≡ taken condition flags lines }
    ensures order { (w a b : ℕ) → 1 ≤ w → a < 2 ^ w → b < 2 ^ w → Compared w a b flags → NamedOrder condition w a b result }
{
    holds(condition, flags, lines)
}

// Whether the flags, or line 2, meet a condition. A function of its own, on which the law that `is_taken` promises is proved. The kinds
// are closed: an arm each is plainer than a table.
fn holds(condition: Condition, flags: Flags, lines: u32) -> bool
    ensures { result ≡ taken condition flags lines }
{
    match condition {
        Condition::Bra => true,
        Condition::Brn => false,
        Condition::Bhi => !flags.c && !flags.z,
        Condition::Bls => flags.c || flags.z,
        Condition::Bcc => !flags.c,
        Condition::Bcs => flags.c,
        Condition::Bne => !flags.z,
        Condition::Beq => flags.z,
        Condition::Bhcc => !flags.h,
        Condition::Bhcs => flags.h,
        Condition::Bpl => !flags.n,
        Condition::Bmi => flags.n,
        Condition::Bmc => !flags.i,
        Condition::Bms => flags.i,
        Condition::Bil => is_raised(lines, 2),
        Condition::Bih => !is_raised(lines, 2),
        Condition::Bge => flags.n == flags.v,
        Condition::Blt => flags.n != flags.v,
        Condition::Bgt => !flags.z && flags.n == flags.v,
        Condition::Ble => flags.z || flags.n != flags.v,
    }
}

// Goes on at a target where a condition holds.
pub fn branch_where(condition: Condition, target: u16, lines: u32, registers: &mut Registers)
    ensures { registers.new ≡ branched_to (taken condition registers.old.flags lines) target registers.old }
{
    if is_taken(condition, registers.flags, lines) {
        registers.pc = target;
    }
}

// Goes on at a signed offset from the next instruction.
pub fn go_by(offset: u8, registers: &mut Registers)
    ensures { registers.new ≡ branched_by true offset registers.old }
{
    registers.pc = displaced(registers.pc, offset);
}
