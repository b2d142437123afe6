use std::alloc::{AllocError, AllocFailed};
use tally_board::MoveBack;

/// Want of memory.
#[derive(Clone, Copy, Drop)]
pub(crate) struct NoMemory;

impl From<AllocError> for NoMemory {
    fn from(_: AllocError) -> NoMemory {
        NoMemory
    }
}

impl<T: Drop> From<AllocFailed<T>> for NoMemory {
    fn from(_: AllocFailed<T>) -> NoMemory {
        NoMemory
    }
}

impl From<MoveBack> for NoMemory {
    fn from(_: MoveBack) -> NoMemory {
        NoMemory
    }
}

impl From<plain_ballots::NoMemory> for NoMemory {
    fn from(_: plain_ballots::NoMemory) -> NoMemory {
        NoMemory
    }
}

impl From<batch_core::NoMemory> for NoMemory {
    fn from(_: batch_core::NoMemory) -> NoMemory {
        NoMemory
    }
}

impl From<shard_book::NoMemory> for NoMemory {
    fn from(_: shard_book::NoMemory) -> NoMemory {
        NoMemory
    }
}
