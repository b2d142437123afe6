// Out of memory.
use std::alloc::{AllocError, AllocFailed};

/// Memory ran out.
#[derive(Clone, Copy, Debug, Drop)]
pub struct NoMemory;

impl From<AllocError> for NoMemory {
    fn from(_: AllocError) -> NoMemory {
        NoMemory
    }
}

impl<T: Drop> From<AllocFailed<T>> for NoMemory {
    fn from(_: AllocFailed<T>) -> NoMemory {
        NoMemory
    }
}

impl From<candidate_roll::NoMemory> for NoMemory {
    fn from(_: candidate_roll::NoMemory) -> NoMemory {
        NoMemory
    }
}

impl From<lane_sheet::NoMemory> for NoMemory {
    fn from(_: lane_sheet::NoMemory) -> NoMemory {
        NoMemory
    }
}
