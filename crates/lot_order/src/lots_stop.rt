// Why an order of lots was refused.

/// Why an order of lots was refused: the first place at fault, from 1, or else the first candidate
/// missing, or want of memory.
#[derive(Clone, Copy, Debug, PartialEq, Eq, Drop)]
pub enum LotsStop {
    /// No place is at fault, and this is the least candidate without a place.
    NotAll(u32),
    /// The place has a candidate that is before it.
    Twice(usize),
    /// The place has no candidate's number.
    OutOfRange(usize),
    NoMemory,
}
