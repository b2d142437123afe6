// What a candidate does to a weight.
ghost use Rattle.std.specs.Prelude.{◌≡◌, true};
ghost use Rattle.vote_spread.specs.Class.{class_of, keeps_some, leaves_some};

/// What a candidate does to the weight of a ballot that reaches it.
#[derive(Clone, Copy)]
pub(crate) enum Class {
    /// Its keep value is 0, and it leaves the whole weight.
    Passes,
    /// It keeps a part and leaves the rest.
    Shares,
    /// It keeps the whole weight.
    Keeps,
}

impl Class {
    /// The class of a candidate with a keep value of so many units, where `one` is the whole.
    pub(crate) fn of(keep: u64, one: u64) -> Class
        ensures { result ≡ class_of one keep }
    {
        if keep == 0 {
            Class::Passes
        } else if keep == one {
            Class::Keeps
        } else {
            Class::Shares
        }
    }

    /// Whether a candidate of this class keeps anything.
    pub(crate) fn keeps_some(self) -> bool
        ensures { result ≡ keeps_some self }
    {
        match self {
            Class::Passes => false,
            Class::Shares => true,
            Class::Keeps => true,
        }
    }

    /// Whether a candidate of this class leaves anything.
    pub(crate) fn leaves_some(self) -> bool
        ensures { result ≡ leaves_some self }
    {
        match self {
            Class::Passes => true,
            Class::Shares => true,
            Class::Keeps => false,
        }
    }

    /// Whether this is that class.
    pub(crate) fn is(self, other: Class) -> bool
        ensures { result ≡ true → self ≡ other }
    {
        match (self, other) {
            (Class::Passes, Class::Passes) => true,
            (Class::Shares, Class::Shares) => true,
            (Class::Keeps, Class::Keeps) => true,
            _ => false,
        }
    }
}
