// What becomes of a mark that is not plain.
ghost use Rattle.std.specs.Prelude.{◌≡◌};
ghost use Rattle.ballot_marks.specs.Ways.{chosen};

use crate::{Way, Why};

/// What becomes of a mark that is not plain: the ballot is refused, or ends before the mark, or goes on
/// after it.
#[derive(Clone, Copy, Debug, PartialEq, Eq)]
pub enum Treat {
    Refuse,
    Cut,
    Pass,
}

impl Treat {
    pub(crate) fn way(self, why: Why) -> Way
        ensures { result ≡ chosen self why }
    {
        match self {
            Treat::Refuse => Way::Refused(why),
            Treat::Cut => Way::Cut,
            Treat::Pass => Way::Passed,
        }
    }
}
