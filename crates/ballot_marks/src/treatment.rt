// What an election says of marks that are not plain.
ghost use Rattle.std.specs.Prelude.{◌≡◌};
ghost use Rattle.ballot_marks.specs.Ways.{said_way, way_behind};

use crate::{Mark, Says, Treat, Way, Why};

/// What an election says of marks that are not plain.
#[derive(Clone, Copy, Debug, PartialEq, Eq)]
pub struct Treatment {
    /// At most so many skipped ranks before a mark are closed, and where there are more the ballot ends.
    /// Where no number is said, skipped ranks are refused.
    pub skipped: Option<u32>,
    /// Of a mark that says more than one candidate.
    pub equal: Treat,
    /// Of a mark that says a candidate that a mark before it says.
    pub repeated: Treat,
}

impl Treatment {
    /// Skipped ranks are closed however many they are, since no mark has more of them before it.
    pub const CLOSE: u32 = u32::MAX;

    /// What becomes of a mark after marks that say these candidates.
    pub(crate) fn way(&self, before: &[u32], mark: Mark) -> Way
        ensures { result ≡ way_behind self.now before.now mark }
    {
        if mark.skipped > 0 {
            match self.skipped {
                None => return Way::Refused(Why::SkippedRank),
                Some(most) if mark.skipped > most => return Way::Cut,
                Some(_) => {}
            }
        }
        self.said_way(before, mark.says)
    }

    fn said_way(&self, before: &[u32], says: Says) -> Way
        ensures { result ≡ said_way self.now before.now says }
    {
        match says {
            Says::Over => self.equal.way(Why::EqualRank),
            Says::One(candidate) => {
                if before.contains(&candidate) {
                    self.repeated.way(Why::Repeated)
                } else {
                    Way::Ranked
                }
            }
        }
    }
}
