use crate::TextKind;

/// The greatest row and the greatest column that a fault names. Those after it are named by it too.
pub const MAX_COUNT: u32 = u32::MAX;

/// Why a text is no table, and where: the byte from 0, the record and the field from 1.
#[derive(Clone, Copy, Debug, PartialEq, Eq)]
pub struct TextFault {
    pub kind: TextKind,
    pub at: usize,
    pub row: u32,
    pub column: u32,
}
