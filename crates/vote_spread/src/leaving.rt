// What candidates leave of a weight.
ghost use Rattle.std.specs.Prelude.{◌≡◌, ◌+◌, ◌≤◌, length};
ghost use Rattle.meek_rule.specs.Weights.{kept};

use crate::factor::left_by;
use crate::keeping::Keeping;
use std::marker::Model;

/// What each candidate leaves of a weight by its keep value. A walk asks for it at each row, so the factors
/// are at hand.
#[derive(Drop)]
pub(crate) struct Leaving<'a> {
    pub(crate) keeping: &'a Keeping,
    pub(crate) factors: &'a [u64],
}

impl<'a> Model for Leaving<'a> {
    ghost use Rattle.vote_spread.specs.KeepingSeen.{KeepingSeen, HaveFactors};

    ghost Value = { KeepingSeen };

    ghost view = { λ l. l.keeping.now };

    ghost invariant = { λ l. HaveFactors l.keeping.now.one l.keeping.now.keeps l.factors.now };
}

impl<'a> Leaving<'a> {
    /// How many units are the whole.
    pub(crate) fn one(&self) -> u64
        ensures { result ≡ self.now.one }
    {
        self.keeping.one()
    }

    /// The weight that a candidate leaves of `weight`. It keeps the rest.
    pub(crate) fn left(&self, weight: u64, candidate: u8) -> u64
        requires candidate { (1 ≤ candidate) × (candidate ≤ length self.now.keeps) }
        requires light { weight ≤ self.now.one }
        ensures { result + kept self.now.one self.now.keeps weight candidate ≡ weight }
    {
        left_by(weight, self.factors[candidate as usize - 1])
    }
}
