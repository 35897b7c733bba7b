// What each operation does, once its operand was found.
ghost use Rattle.std.specs.Prelude.{◌≡◌};
ghost use Rattle.operands.specs.Leaves.{Performs};
ghost use Rattle.machine.specs.Act.{acted, stands};

use access::fault::Fault;
use bus::traits::Bus;
use calls::interrupt::software_interrupt;
use calls::jumps::transfer;
use calls::returns::go_back;
use calls::stack::use_stack;
use effects::branch::branch_where;
use effects::register_only::register_only;
use effects::rest::rest;
use flow::bits::branch_on_bit;
use flow::compare::branch_where_equal;
use flow::loops::decrement_and_branch;
use isa::operation::Operation;
use operands::address::Operand;
use operands::processor::Processor;
use operations::combine::{combine_operand, displace_pointer};
use operations::stores::store_register;
use operations::words::word_operation;
use rewrites::bits::change_memory_bit;
use rewrites::modify::modify_operand;
use rewrites::moves::move_byte;
use state::standing::Standing;

// The program counter is already at the next instruction. The kinds are closed: an arm each is plainer than a table.
// `operation, operand`: the match takes the operation apart, and an arm takes the operand, its address or neither. A struct of the
// two would be made by `operate` and taken apart here at once.
// `standing, lines`: the processor lends the registers alone, so that no operation can reach how the machine stands or its lines. One
// arm reads the lines and one writes the standing: a struct of what is left of `Live` would be taken apart again here.
pub(crate) fn act<B: Bus>(
    processor: &mut Processor<'_, B>,
    operation: Operation,
    operand: Operand,
    standing: &mut Standing,
    lines: u32,
) -> Result<(), Fault>
    ensures meaning { Performs B.cells (λ r. acted operation operand r lines) processor.old result processor.new }
    ensures standing { standing.new ≡ stands result operation standing.old }
{
    let address = operand.address;
    match operation {
        Operation::Branch(condition) => {
            branch_where(condition, address, lines, processor.registers)
        }
        Operation::BranchOnBit(branch) => branch_on_bit(processor, branch, operand)?,
        Operation::ChangeBit(change) => change_memory_bit(processor.bus, change, address)?,
        Operation::Combine(operation) => combine_operand(processor, operation, address)?,
        Operation::Store(operation) => store_register(processor, operation, address)?,
        Operation::Modify(operation) => modify_operand(processor, operation, operand)?,
        Operation::CompareAndBranch(operation) => {
            branch_where_equal(processor, operation, operand)?
        }
        Operation::DecrementAndBranch => decrement_and_branch(processor, operand)?,
        Operation::Move => move_byte(processor, operand)?,
        Operation::Word(operation) => word_operation(processor, operation, address)?,
        Operation::Displace(pointer) => displace_pointer(processor, pointer, address)?,
        Operation::Transfer(jump) => transfer(processor, jump, address)?,
        Operation::GoBack(way) => go_back(processor, way)?,
        Operation::SoftwareInterrupt => software_interrupt(processor)?,
        Operation::Stack(operation) => use_stack(processor, operation)?,
        Operation::Register(operation) => register_only(operation, processor.registers),
        Operation::Rest(standstill) => *standing = rest(standstill, processor.registers),
    }
    Ok(())
}
