// The weight that a candidate leaves, by one multiplication.
ghost use Rattle.std.specs.Prelude.{◌≡◌, ◌*◌, ◌/◌, ◌≤◌};
ghost use Rattle.vote_spread.specs.Factor.{factor_of};

/// The share that a candidate of keep value `keep` leaves, where `one` is the whole: in parts of
/// 2^63, rounded up.
#[tactic(auto, using(crate::proofs::FactorLemmas::factor_le))]
pub(crate) fn factor_of(keep: u64, one: u64) -> u64
    requires some { 1 ≤ one }
    requires small { one ≤ 1000000000 }
    requires part { keep ≤ one }
    ensures { result ≡ factor_of one keep }
{
    (HALF * (one - keep) as u128).div_ceil(one as u128) as u64
}

/// The weight that a candidate leaves of `weight`, by its factor.
pub(crate) fn left_by(weight: u64, factor: u64) -> u64
    requires light { weight ≤ 1000000000 }
    ensures { result ≡ 2 * weight * factor / 18446744073709551616 }
{
    (((2 * weight) as u128 * factor as u128) >> 64) as u64
}

/// The whole, in parts of 2^63.
const HALF: u128 = 1 << 63;
