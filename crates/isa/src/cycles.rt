// What an instruction costs on each core.
ghost use Rattle.std.specs.Prelude.{◌≡◌};
ghost use Rattle.isa.specs.Cycles.{cycles_on};

use crate::model::Model;

// The cycles of an instruction, as the timing table pairs them.
#[derive(Clone, Copy)]
pub enum Cycles {
    // alike on both cores
    Both(u8),
    // on the CPU08, and on the HCS08
    Each(u8, u8),
    // the HCS08 alone has the instruction
    Hcs08Only(u8),
}

impl Cycles {
    // The cycles on a core, or none where the core lacks the instruction. The kinds are closed: arms that name
    // them all are plainer than a table.
    pub fn on(self, model: Model) -> Option<u8>
        ensures { result ≡ cycles_on model self }
    {
        match (self, model) {
            (Cycles::Both(cycles), Model::Cpu08 | Model::Hcs08) => Some(cycles),
            (Cycles::Each(cpu08, _), Model::Cpu08) => Some(cpu08),
            (Cycles::Each(_, hcs08), Model::Hcs08) => Some(hcs08),
            (Cycles::Hcs08Only(_), Model::Cpu08) => None,
            (Cycles::Hcs08Only(cycles), Model::Hcs08) => Some(cycles),
        }
    }
}
