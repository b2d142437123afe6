// What a scribe hands to both copies of a board.
use crate::{Move, Note};

/// A move, and a note of all moves before it. So no place in the log is wanted for a note.
#[derive(Drop)]
pub struct Entry {
    pub step: Move,
    pub before: Note,
}
