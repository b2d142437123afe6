// The part of a weight that a candidate keeps.
ghost use Rattle.std.specs.Prelude.{◌≡◌, ◌≤◌};
ghost use Rattle.fixed_place.specs.Rounding.{scale, up};

use crate::{Keep, scale_of};

/// The part of a weight, in units of 10^-P and at most the whole, that a candidate of keep value `keep`
/// keeps, rounded up. It is `mul_up` in 64 bits.
#[inline]
#[tactic(auto, using(crate::proofs::KeepPartLemmas::keep_parts))]
pub fn keep_part<const P: usize>(weight: u64, keep: Keep<P>) -> u64
    requires { weight ≤ scale P }
    ensures kept { result ≡ up (scale P) weight keep.entry }
    ensures part { result ≤ weight }
{
    let units = keep.units();
    let one = scale_of::<P>();
    (weight * units + (one - 1)) / one
}
