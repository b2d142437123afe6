/// Batches are numbered from 1 to this, and so are the revisions of a batch.
pub const LAST_NUMBER: u32 = 9_999;

/// A batch has at most this many ballots.
pub const MOST_OF_BATCH: u32 = 100_000;

/// So many ballots can stand at most: 9,999 batches of 100,000.
pub const MOST_STANDING: u32 = 999_900_000;

/// Teams are numbered from 1 to this; the clerk, who freezes, is 0.
pub const MOST_TEAMS: u32 = 16;
