// The surplus below which nothing is transferred.
ghost use Rattle.std.specs.Prelude.{◌≡◌, ◌<◌, ◌≤◌, IfNone, IfSome};
ghost use Rattle.fixed_place.specs.declared.omega.TheConstants.{MOST_OMEGA, USUAL_OMEGA};

use crate::Amount;
use std::marker::Model;

/// The greatest omega, in units of the last place: 0.001 of a vote at nine places, one vote at six.
pub const MOST_OMEGA: u32 = 1_000_000;

/// The omega of an election for which nothing else is said: 0.000001 of a vote at nine places.
pub const USUAL_OMEGA: u32 = 1_000;

/// The least surplus that a count transfers, in units of the last place.
#[derive(Clone, Copy, Debug, PartialEq, Eq)]
pub struct Omega {
    units: u32,
}

impl Model for Omega {
    ghost use Rattle.std.specs.Prelude.{ℕ, ◌≤◌};
    ghost use Rattle.fixed_place.specs.declared.omega.TheConstants.{MOST_OMEGA};

    ghost Value = { ℕ };

    ghost view = { λ o. o.units };

    ghost invariant = { λ o. (1 ≤ o.units) × (o.units ≤ MOST_OMEGA) };

    ghost inverse = { λ n. record { units = n } };
}

impl Omega {
    /// An omega of so many units, from 1 to [`MOST_OMEGA`].
    pub fn new(units: u32) -> Option<Omega>
        ensures some { IfSome result (λ o. o ≡ units) }
        ensures none { IfNone result (1 ≤ units → MOST_OMEGA < units) }
    {
        if units < 1 || units > MOST_OMEGA {
            return None;
        }
        Some(Omega { units })
    }

    /// [`USUAL_OMEGA`].
    pub fn usual() -> Omega
        ensures { result ≡ USUAL_OMEGA }
    {
        Omega { units: USUAL_OMEGA }
    }

    pub fn units(self) -> u32
        ensures value { result ≡ self }
        ensures least { 1 ≤ result }
        ensures most { result ≤ MOST_OMEGA }
    {
        self.units
    }

    /// So many units as an amount.
    pub fn amount<const P: usize>(self) -> Amount<P>
        requires places { (6 ≤ P) × (P ≤ 9) }
        ensures value { result ≡ self }
        ensures least { 1 ≤ result }
        ensures most { result ≤ MOST_OMEGA }
    {
        Amount::from_units(self.units as u64)
    }
}
