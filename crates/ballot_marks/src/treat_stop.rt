// Why marks have no ranking.
ghost use Rattle.std.specs.Prelude.{◌≡◌};
ghost use Rattle.ballot_marks.specs.declared.treat_stop.TreatStop.TheVariants.{NoMemory as no_memory};

use crate::Why;
use plain_ballots::NoMemory;

/// Why marks have no ranking: one of them is refused, or memory is wanted.
#[derive(Clone, Copy, Debug, PartialEq, Eq)]
pub enum TreatStop {
    /// The mark at this place, from 0, is refused.
    Refused { place: usize, why: Why },
    NoMemory,
}

impl From<NoMemory> for TreatStop {
    ghost from_gives = { λ _ stop. stop ≡ no_memory };

    fn from(_: NoMemory) -> TreatStop {
        TreatStop::NoMemory
    }
}
