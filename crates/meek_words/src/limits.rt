/// The words may ask for at most so many shards.
pub(crate) const MOST_SHARDS: u32 = 64;

/// The words may ask for at most so many workers.
pub(crate) const MOST_WORKERS: u32 = 32;

/// How many shards there are where the words say nothing of them.
pub(crate) const SHARDS: u32 = 8;

/// How many workers there are where the words say nothing of them.
pub(crate) const WORKERS: u32 = 4;
