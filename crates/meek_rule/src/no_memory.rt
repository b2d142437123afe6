/// Want of memory.
#[derive(Clone, Copy, Debug, PartialEq, Eq, Drop)]
pub struct NoMemory;

impl From<fixed_place::NoMemory> for NoMemory {
    fn from(_: fixed_place::NoMemory) -> NoMemory {
        NoMemory
    }
}

impl From<candidate_roll::NoMemory> for NoMemory {
    fn from(_: candidate_roll::NoMemory) -> NoMemory {
        NoMemory
    }
}

impl From<lot_order::NoMemory> for NoMemory {
    fn from(_: lot_order::NoMemory) -> NoMemory {
        NoMemory
    }
}
