// Why an order is not read.
use crate::PrefKind;

/// A part that can't stand where it does: why, and the place of its first byte in the line.
#[derive(Clone, Copy)]
pub(crate) struct Misplaced {
    pub kind: PrefKind,
    pub at: usize,
}

/// Why an order is not read: a part is misplaced, or memory is wanted.
#[derive(Clone, Copy)]
pub(crate) enum OrderStop {
    Misplaced(Misplaced),
    NoMemory,
}
