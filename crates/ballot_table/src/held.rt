// Who has each rank of a row.
ghost use Rattle.std.specs.Prelude.{◌≡◌};
ghost use Rattle.ballot_table.specs.Held.{with_holder, says_held, held_refused};

use ballot_marks::{Says, Why};

/// Who has a rank, in the order of the columns.
#[derive(Clone, Copy)]
pub(crate) enum Held {
    Nobody,
    One(u32),
    More { first: u32, second: u32 },
}

impl Held {
    /// One more candidate has the rank.
    pub fn with(self, candidate: u32) -> Held
        ensures { result ≡ with_holder self candidate }
    {
        match self {
            Held::Nobody => Held::One(candidate),
            Held::One(first) => Held::More {
                first,
                second: candidate,
            },
            Held::More { .. } => self,
        }
    }

    /// What the rank says, if it isn't blank.
    pub fn says(self) -> Option<Says>
        ensures { result ≡ says_held self }
    {
        match self {
            Held::Nobody => None,
            Held::One(candidate) => Some(Says::One(candidate)),
            Held::More { .. } => Some(Says::Over),
        }
    }

    /// The candidate at whose cell the rank is refused.
    pub fn refused(self, why: Why) -> u32
        ensures { result ≡ held_refused why self }
    {
        match self {
            Held::Nobody => 0,
            Held::One(candidate) => candidate,
            Held::More { first, second } => match why {
                Why::EqualRank => second,
                Why::SkippedRank | Why::Repeated => first,
            },
        }
    }
}
