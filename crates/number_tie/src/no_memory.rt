//! The one refusal of this crate.
use std::alloc::AllocError;

/// There was no memory.
#[derive(Debug, Drop)]
pub struct NoMemory;

impl From<AllocError> for NoMemory {
    fn from(_: AllocError) -> Self {
        NoMemory
    }
}
