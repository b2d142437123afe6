// Why a text is refused, and where.
use crate::PrefKind;

/// Why a text of PrefLib is refused, and where.
#[derive(Clone, Copy, Debug, PartialEq, Eq)]
pub enum PrefFault {
    /// A line is at fault: the byte from 0, the line and the byte of the line from 1.
    Line {
        kind: PrefKind,
        at: usize,
        row: usize,
        column: usize,
    },
    /// One of the withdrawn is no candidate: the place in their list, from 1.
    Word {
        kind: PrefKind,
        place: usize,
    },
}
