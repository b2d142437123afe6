// What a chronicle's book keeps of a move. It is in proofs alone.
use crate::Move;

/// A move, with the key that it spends, and the key that the next move of its board is to spend. No
/// value of it is ever made.
pub struct Line {
    pub key: u64,
    pub step: Move,
    pub next: u64,
}
