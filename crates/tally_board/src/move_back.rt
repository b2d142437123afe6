use crate::Move;

/// Want of memory, with the move that was handed in.
#[derive(Clone, Copy, Debug, PartialEq, Eq, Drop)]
pub struct MoveBack {
    pub step: Move,
}
