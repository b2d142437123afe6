// Want of memory.
use std::alloc::AllocFailed;

/// Want of memory.
#[derive(Clone, Copy, Debug, PartialEq, Eq, Drop)]
pub struct NoMemory;

impl<T: Drop> From<AllocFailed<T>> for NoMemory {
    fn from(_: AllocFailed<T>) -> NoMemory {
        NoMemory
    }
}

impl From<frozen_plan::NoMemory> for NoMemory {
    fn from(_: frozen_plan::NoMemory) -> NoMemory {
        NoMemory
    }
}

impl From<meek_rule::NoMemory> for NoMemory {
    fn from(_: meek_rule::NoMemory) -> NoMemory {
        NoMemory
    }
}

impl From<vote_spread::NoMemory> for NoMemory {
    fn from(_: vote_spread::NoMemory) -> NoMemory {
        NoMemory
    }
}
