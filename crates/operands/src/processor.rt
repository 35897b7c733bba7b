// What an instruction works on.
ghost use Rattle.operands.specs.Leaves.{stored_and_tested, Performs};

use access::cells::store_cell;
use access::fault::Fault;
use bus::traits::Bus;
use state::registers::Registers;

// The memory that an instruction reaches, and the registers that it changes. What is done, and the address where, stand beside it as
// parameters: the operations are of seven types, and a struct over them would be made in an arm of `machine::act` and taken apart in
// the one function that the arm calls.
#[derive(Drop)]
pub struct Processor<'a, B> {
    pub bus: &'a mut B,
    pub registers: &'a mut Registers,
}

impl<'a, B: Bus> Processor<'a, B> {
    // Stores a byte at an address, and tests it.
    pub fn store_and_test(&mut self, address: u16, byte: u8) -> Result<(), Fault>
        ensures { Performs B.cells (stored_and_tested address byte) self.old result self.new }
    {
        store_cell(self.bus, address, byte)?;
        self.registers.test(byte);
        Ok(())
    }
}
