// What a scribe or a watcher knows of a board. It is in proofs alone.
use crate::{Move, Note};
use std::collections::LinkedList;

/// What is known of a board. No value of it is ever made.
pub struct BoardView {
    /// How many candidates there are, once that was told.
    pub candidates: Option<u64>,
    /// A note of the board, once that was told.
    pub home: Option<Note>,
    /// The moves that were seen.
    pub seen: LinkedList<Move>,
}
