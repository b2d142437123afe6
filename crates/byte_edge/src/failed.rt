// What a read, a write or a flush answers where it failed.

/// A read, a write or a flush failed. The count of faults of its source or sink has risen.
#[derive(Clone, Copy, Debug, PartialEq, Eq)]
pub struct Failed;
