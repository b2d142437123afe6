/// Where a field stands: from its first byte, which is its quote where it is quoted, up to right after its last; and the
/// number that it is, from 1 to 99, which is 0 where the field is empty and [`NO_NUMBER`](crate::NO_NUMBER) where it is
/// anything else.
#[derive(Clone, Copy, Debug, PartialEq, Eq)]
pub struct Cell {
    pub at: usize,
    pub stop: usize,
    pub number: u32,
}
