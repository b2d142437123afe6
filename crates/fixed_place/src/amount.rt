// An amount of votes.
ghost use Rattle.std.specs.Prelude.{◌≡◌, ◌≤◌};
ghost use Rattle.fixed_place.specs.Rounding.{most};

use std::marker::Model;

/// An amount of votes, in units of 10^-P votes: at most a thousand million votes.
#[derive(Clone, Copy, Debug, PartialEq, Eq)]
pub struct Amount<const P: usize> {
    units: u64,
}

impl<const P: usize> Model for Amount<P> {
    ghost use Rattle.std.specs.Prelude.{ℕ, ◌+◌, ◌^◌, ◌≤◌};

    ghost Value = { ℕ };

    ghost view = { λ a. a.units };

    ghost invariant = { λ a. (6 ≤ P) × (P ≤ 9) × (a.units ≤ 10 ^ (P + 9)) };

    ghost inverse = { λ n. record { units = n } };
}

impl<const P: usize> Amount<P> {
    pub fn from_units(units: u64) -> Self
        requires places { (6 ≤ P) × (P ≤ 9) }
        requires bound { units ≤ most P }
        ensures { result ≡ units }
    {
        Amount { units }
    }

    pub fn units(&self) -> u64
        ensures value { result ≡ self.now }
        ensures bound { result ≤ most P }
        ensures places { (6 ≤ P) × (P ≤ 9) }
    {
        self.units
    }
}
