// What of a candidate wants a look.
ghost use Rattle.std.specs.Prelude.{◌≡◌};
ghost use Rattle.ballot_findings.specs.Doubts.{doubt_words};

use crate::oddity::Oddity;

/// What of a candidate wants a look.
#[derive(Clone, Copy)]
pub(crate) enum Doubt {
    /// The name wants a look by itself.
    Name(Oddity),
    /// No ballot ranks the candidate.
    Unranked,
}

impl Doubt {
    /// How the line begins that says so.
    pub(crate) fn words(self) -> &'static [u8]
        ensures { result.now ≡ doubt_words self }
    {
        match self {
            Doubt::Name(oddity) => oddity.name_words(),
            Doubt::Unranked => b"look on no ballot",
        }
    }
}
