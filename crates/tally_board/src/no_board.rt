/// Why there is no board.
#[derive(Clone, Copy, Debug, PartialEq, Eq, Drop)]
pub enum NoBoard {
    /// Want of memory.
    NoMemory,
    /// There was no place for a watcher.
    NoPlace,
}
