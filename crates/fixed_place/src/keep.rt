// The keep value of a candidate.
ghost use Rattle.std.specs.Prelude.{◌≡◌, ◌≤◌};
ghost use Rattle.fixed_place.specs.Rounding.{scale};

use std::marker::Model;

/// A keep value, in units of 10^-P: the share of each vote that reaches it which a candidate keeps,
/// at most the whole.
#[derive(Clone, Copy, Debug, PartialEq, Eq)]
pub struct Keep<const P: usize> {
    units: u64,
}

impl<const P: usize> Model for Keep<P> {
    ghost use Rattle.std.specs.Prelude.{ℕ, ◌^◌, ◌≤◌};

    ghost Value = { ℕ };

    ghost view = { λ k. k.units };

    ghost invariant = { λ k. (6 ≤ P) × (P ≤ 9) × (k.units ≤ 10 ^ P) };

    ghost inverse = { λ n. record { units = n } };
}

impl<const P: usize> Keep<P> {
    pub fn from_units(units: u64) -> Self
        requires places { (6 ≤ P) × (P ≤ 9) }
        requires bound { units ≤ scale P }
        ensures { result ≡ units }
    {
        Keep { units }
    }

    pub fn units(&self) -> u64
        ensures value { result ≡ self.now }
        ensures bound { result ≤ scale P }
        ensures places { (6 ≤ P) × (P ≤ 9) }
    {
        self.units
    }
}
