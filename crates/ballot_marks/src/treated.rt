// What the marks of a ballot come to.
use plain_ballots::Ranking;

/// What the marks of a ballot come to, up to the mark at which the ballot ends.
#[derive(Debug, Drop)]
pub struct Treated {
    pub ranking: Ranking,
    /// Ranks that were skipped are closed.
    pub closed: bool,
    /// A mark was passed.
    pub passed: bool,
    /// The ballot ends before a mark that was cut.
    pub cut: bool,
}
