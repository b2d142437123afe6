/// At most so many workers count the ballots of plans, each in a lane of its own.
pub const MOST_WORKERS: u32 = 32;
