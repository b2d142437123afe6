// The roundings of a count.
ghost use Rattle.std.specs.Prelude.{◌≡◌, ◌+◌, ◌-◌, ◌*◌, ◌/◌, ◌<◌, ◌≤◌, ◌≢◌, ◌↔◌, IsTrue, min};
ghost use Rattle.std.specs.Option.{SomeIff};
ghost use Rattle.fixed_place.specs.Rounding.{scale, most, up, upover};

use crate::scale::most_of;
use crate::{Amount, Keep, scale_of};

/// The part of `a` that a candidate of keep value `k` keeps, rounded up.
#[tactic(auto, using(crate::proofs::RoundingLemmas::roundings))]
pub fn mul_up<const P: usize>(a: Amount<P>, k: Keep<P>) -> Amount<P>
    ensures kept { result ≡ up (scale P) a.entry k.entry }
    ensures part { result ≤ a.entry }
{
    let product = a.units() as u128 * k.units() as u128;
    let one = scale_of::<P>();
    let kept = product.div_ceil(one as u128);
    Amount::from_units(kept as u64)
}

/// What goes on of a weight after a candidate of keep value `k`: its share `1 - k`, rounded down,
/// which is just what is left of it.
#[tactic(auto, using(crate::proofs::RoundingLemmas::roundings))]
pub fn rounding_law<const P: usize>(w: Amount<P>, k: Keep<P>) -> Amount<P>
    requires { w ≤ scale P }
    ensures share { result ≡ w.entry * (scale P - k.entry) / scale P }
    ensures rest { result ≡ w.entry - up (scale P) w.entry k.entry }
{
    let one = scale_of::<P>();
    Amount::from_units(w.units() * (one - k.units()) / one)
}

/// `a` over `v` as a keep value, rounded up and at most 1, and whether it would have been above 1.
pub fn div_up_capped<const P: usize>(a: Amount<P>, v: Amount<P>) -> (Keep<P>, bool)
    requires { v ≢ 0 }
    ensures keep { result.0 ≡ min (scale P) (upover (scale P) a.entry v.entry) }
    ensures capped { IsTrue result.1 ↔ (scale P < upover (scale P) a.entry v.entry) }
{
    let units = a.units() as u128;
    let one = scale_of::<P>();
    let over = (units * one as u128).div_ceil(v.units() as u128);
    if over > one as u128 {
        (Keep::from_units(one), true)
    } else {
        (Keep::from_units(over as u64), false)
    }
}

/// `a` over `n`, rounded down.
pub fn div_down<const P: usize>(a: Amount<P>, n: u32) -> Amount<P>
    requires { 1 ≤ n }
    ensures { result ≡ a.entry / n }
{
    Amount::from_units(a.units() / n as u64)
}

/// The sum, where it is an amount.
#[tactic(auto, using(crate::proofs::RoundingLemmas::roundings))]
pub fn sum_checked<const P: usize>(a: Amount<P>, b: Amount<P>) -> Option<Amount<P>>
    ensures { SomeIff result (a.entry + b.entry ≤ most P) (a.entry + b.entry) }
{
    let first = a.units();
    let most = most_of::<P>();
    let sum = first + b.units();
    if sum <= most {
        Some(Amount::from_units(sum))
    } else {
        None
    }
}
