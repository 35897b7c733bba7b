// The first line: which core the board has.
ghost use Rattle.std.specs.Prelude.{◌≡◌};
ghost use Rattle.console.specs.First.{core_of};

use isa::model::Model;

// The core that the first line names: one letter, and nothing beside it. `Model` is of another crate: a `TryFrom` would need a type round
// it, which is no plainer. A table of letters would be searched, and then still need the arm of all other lines.
pub fn core_name(line: &[u8]) -> Option<Model>
    ensures { result ≡ core_of line.now }
{
    match line {
        [b'K'] => Some(Model::Cpu08),
        [b'H'] => Some(Model::Hcs08),
        _ => None,
    }
}
