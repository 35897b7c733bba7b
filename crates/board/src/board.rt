// A board: a memory, a core, a clock and a stage of its life.
ghost use Rattle.std.specs.Prelude.{◌≡◌};

// The clock's limit: no board starts above it, and no step is taken above it.
pub const CLOCK_LIMIT: u64 = 1_000_000_000_000_000_000;

// The stage is a type, so that each call exists only where it may be made.
#[derive(Drop)]
pub struct Board<B, C, S> {
    pub(crate) bus: B,
    pub(crate) core: C,
    pub(crate) clock: u64,
    pub(crate) stage: S,
}

impl<B, C, S: Copy> Board<B, C, S> {
    // The same board at another stage. It is taken apart, since `..self` would keep the type of the stage.
    pub(crate) fn at<T>(self, stage: T) -> Board<B, C, T>
        ensures { result ≡ record { bus = self.bus; core = self.core; clock = self.clock; stage = stage } }
    {
        let Board {
            bus,
            core,
            clock,
            ..
        } = self;
        Board {
            bus,
            core,
            clock,
            stage,
        }
    }
}
