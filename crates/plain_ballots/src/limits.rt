/// An election has at most this many candidates, and at most this many seats.
pub const MOST_CANDIDATES: u32 = 250;

/// An election has at most this many ballots, empty ones included.
pub const MOST_BALLOTS: u32 = 999_999_999;
