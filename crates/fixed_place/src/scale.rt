// How many units are one vote, and how many are the largest amount.
ghost use Rattle.std.specs.Prelude.{◌≡◌, ◌≤◌};
ghost use Rattle.fixed_place.specs.Rounding.{scale, most};

const SCALES: [u64; 10] = [
    1,
    10,
    100,
    1_000,
    10_000,
    100_000,
    1_000_000,
    10_000_000,
    100_000_000,
    1_000_000_000,
];

/// How many units are one vote at `P` decimal places.
pub fn scale_of<const P: usize>() -> u64
    requires { P ≤ 9 }
    ensures value { result ≡ scale P }
    ensures positive { 1 ≤ result }
    ensures bound { result ≤ 1000000000 }
{
    SCALES[P]
}

#[tactic(auto, using(crate::proofs::RoundingLemmas::roundings))]
pub(crate) fn most_of<const P: usize>() -> u64
    requires { P ≤ 9 }
    ensures value { result ≡ most P }
    ensures bound { result ≤ 1000000000000000000 }
{
    1_000_000_000 * scale_of::<P>()
}
