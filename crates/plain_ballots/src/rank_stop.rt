// Why ranks are no ranking.
ghost use Rattle.std.specs.Prelude.{◌≡◌};
ghost use Rattle.plain_ballots.specs.declared.rank_stop.RankStop.TheVariants.{NoMemory as no_memory_stop};

use crate::NoMemory;

/// Why ranks are no ranking: the first place at fault, from 1, or want of memory.
#[derive(Clone, Copy, Debug, PartialEq, Eq, Drop)]
pub enum RankStop {
    /// The place has no candidate's number.
    OutOfRange(usize),
    /// The place has a candidate that is before it.
    Repeated(usize),
    NoMemory,
}

impl From<NoMemory> for RankStop {
    ghost from_gives = { λ _ stop. stop ≡ no_memory_stop };

    fn from(_: NoMemory) -> RankStop {
        RankStop::NoMemory
    }
}
