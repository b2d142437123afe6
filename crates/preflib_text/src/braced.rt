// The candidates in braces.
ghost use Rattle.std.specs.Prelude.{◌≡◌};
ghost use Rattle.preflib_text.specs.Standing.{more_braced, says_braced};

use ballot_marks::Says;

/// The candidates in braces, as far as they are read.
#[derive(Clone, Copy)]
pub(crate) enum Braced {
    Nobody,
    One(u32),
    More,
}

impl Braced {
    /// With one more candidate.
    pub fn with(self, n: u32) -> Braced
        ensures { result ≡ more_braced self n }
    {
        match self {
            Braced::Nobody => Braced::One(n),
            Braced::One(_) | Braced::More => Braced::More,
        }
    }

    /// What they say where the braces are closed.
    pub fn says(self) -> Says
        ensures { result ≡ says_braced self }
    {
        match self {
            Braced::One(n) => Says::One(n),
            Braced::Nobody | Braced::More => Says::Over,
        }
    }
}
