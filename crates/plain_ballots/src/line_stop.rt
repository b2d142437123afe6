// Why a line was not added.
use crate::BallotLine;

/// Why a line was not added. It is handed back.
#[derive(Debug, Drop)]
pub enum LineStop {
    /// With this line there would be more than 999,999,999 ballots.
    TooMany(BallotLine),
    NoMemory(BallotLine),
}
