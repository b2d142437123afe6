/// The batches of an office are dealt out among at most so many shards.
pub const MOST_SHARDS: u32 = 64;
