// The class of a cell, and why a bus refuses.
ghost use Rattle.std.specs.Prelude.{◌≡◌};
ghost use Rattle.bus.specs.Cell.{bus_number};

// What may be done with the cell at an address.
#[derive(Clone, Copy, PartialEq, Eq, Debug)]
pub enum Class {
    // shows a byte, and takes stores
    Open,
    // shows a byte, and takes none
    Guarded,
    // shows nothing
    Missing,
}

// Why a bus refuses a read or a store.
#[derive(Clone, Copy, PartialEq, Eq, Debug)]
pub enum BusRefusal {
    MissingCell,
    GuardedCell,
}

// The refusal's number.
impl From<BusRefusal> for u8 {
    ghost from_gives = { λ refusal number. number ≡ bus_number refusal };

    fn from(refusal: BusRefusal) -> u8 {
        match refusal {
            BusRefusal::MissingCell => 1,
            BusRefusal::GuardedCell => 2,
        }
    }
}
