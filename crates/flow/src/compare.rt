// CBEQ, CBEQA and CBEQX.
ghost use Rattle.operands.specs.Leaves.{Performs};
ghost use Rattle.flow.specs.Compare.{compared_immediate, compared_operand, branched_where_equal};

use access::cells::read_cell;
use access::fault::Fault;
use bus::traits::Bus;
use effects::branch::go_by;
use effects::compare::branch_where_a_is;
use isa::operation::CompareBranch;
use operands::address::Operand;
use operands::processor::Processor;

// Branches where a register equals the byte after the opcode.
fn compare_immediate<B: Bus>(
    processor: &mut Processor<'_, B>,
    register: u8,
    operand: Operand,
) -> Result<(), Fault>
    ensures { Performs B.cells (compared_immediate register operand) processor.old result processor.new }
{
    let byte = read_cell(processor.bus, operand.bytes)?;
    let offset = read_cell(processor.bus, operand.bytes.wrapping_add(1))?;
    if register == byte {
        go_by(offset, processor.registers);
    }
    Ok(())
}

// Branches where A equals the operand in memory. It reads the offset and the byte as `branch_on_bit` does: a function for the two calls
// would answer a pair, to be taken apart at once.
fn compare_operand<B: Bus>(processor: &mut Processor<'_, B>, operand: Operand) -> Result<(), Fault>
    ensures { Performs B.cells (compared_operand operand) processor.old result processor.new }
{
    let offset = read_cell(processor.bus, operand.behind())?;
    let byte = read_cell(processor.bus, operand.address)?;
    branch_where_a_is(byte, offset, operand.mode, processor.registers);
    Ok(())
}

// Branches where A, or X, equals the operand. The kinds are closed: an arm each is plainer than a table, and the arms of CBEQA and CBEQX
// are what tells the two fields apart. The operation goes no further
// than this match: a struct of it and its operand would be made by the dispatcher and taken apart here at once.
pub fn branch_where_equal<B: Bus>(
    processor: &mut Processor<'_, B>,
    operation: CompareBranch,
    operand: Operand,
) -> Result<(), Fault>
    ensures { Performs B.cells (branched_where_equal operation operand) processor.old result processor.new }
{
    let register = match operation {
        CompareBranch::Cbeq => return compare_operand(processor, operand),
        CompareBranch::Cbeqa => processor.registers.a,
        CompareBranch::Cbeqx => processor.registers.x,
    };
    compare_immediate(processor, register, operand)
}
