// Why not all work is done.

/// Why no list of what came of the pieces is given.
#[derive(Drop, Clone, Copy, PartialEq, Eq, Debug)]
pub enum Undone {
    /// Nothing came of some piece.
    Nothing,
    /// Memory for the pieces, or for what came of them, was wanted.
    NoMemory,
}
