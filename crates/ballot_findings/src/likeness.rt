// What of two candidates' names wants a look.
ghost use Rattle.std.specs.Prelude.{◌≡◌};
ghost use Rattle.ballot_findings.specs.Doubts.{like_words};

/// What of two candidates' names wants a look.
#[derive(Clone, Copy)]
pub(crate) enum Likeness {
    /// They are the same.
    Same,
    /// Only spaces and the case of letters tell them apart.
    Similar,
}

impl Likeness {
    /// How the line begins that says so.
    pub(crate) fn words(self) -> &'static [u8]
        ensures { result.now ≡ like_words self }
    {
        match self {
            Likeness::Same => b"look same name",
            Likeness::Similar => b"look similar name",
        }
    }
}
