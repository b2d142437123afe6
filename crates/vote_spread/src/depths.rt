use plain_ballots::MOST_CANDIDATES;

/// A node's depth is 0 to the number of candidates: there are at most this many depths.
pub(crate) const DEPTHS: usize = MOST_CANDIDATES as usize + 1;
