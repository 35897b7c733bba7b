// Why an instruction cannot go on: the machine then halts.
#[derive(Clone, Copy)]
pub enum Fault {
    MissingCell,
    NoInstruction,
}
