use batch_core::StepBack;
use std::alloc::{AllocError, AllocFailed};

/// Memory ran out.
#[derive(Clone, Copy, Debug, PartialEq, Eq, Drop)]
pub struct NoMemory;

impl From<AllocError> for NoMemory {
    fn from(_: AllocError) -> NoMemory {
        NoMemory
    }
}

impl<T: Drop> From<AllocFailed<T>> for NoMemory {
    fn from(_: AllocFailed<T>) -> NoMemory {
        NoMemory
    }
}

impl From<batch_core::NoMemory> for NoMemory {
    fn from(_: batch_core::NoMemory) -> NoMemory {
        NoMemory
    }
}

impl From<StepBack> for NoMemory {
    fn from(_: StepBack) -> NoMemory {
        NoMemory
    }
}

impl From<frozen_plan::NoMemory> for NoMemory {
    fn from(_: frozen_plan::NoMemory) -> NoMemory {
        NoMemory
    }
}

impl From<packed_ballots::NoMemory> for NoMemory {
    fn from(_: packed_ballots::NoMemory) -> NoMemory {
        NoMemory
    }
}

impl From<candidate_roll::NoMemory> for NoMemory {
    fn from(_: candidate_roll::NoMemory) -> NoMemory {
        NoMemory
    }
}

impl From<lane_sheet::NoMemory> for NoMemory {
    fn from(_: lane_sheet::NoMemory) -> NoMemory {
        NoMemory
    }
}

impl From<day_sheets::NoMemory> for NoMemory {
    fn from(_: day_sheets::NoMemory) -> NoMemory {
        NoMemory
    }
}
