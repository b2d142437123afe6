// Why there is no such roll.

/// Why there is no such roll. The number of candidates is looked at first.
#[derive(Clone, Copy, Debug, PartialEq, Eq, Drop)]
pub enum RollStop {
    /// The candidates aren't 1 to [`MOST_CANDIDATES`](plain_ballots::MOST_CANDIDATES).
    BadCount,
    /// The seats aren't 1 to [`MOST_CANDIDATES`](plain_ballots::MOST_CANDIDATES).
    BadSeats,
    NoMemory,
}
