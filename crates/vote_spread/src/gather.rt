// What all lanes have counted.
ghost use Rattle.std.specs.Prelude.{◌≡◌, ℕ, ◌<◌, ◌≤◌, ◌^◌, All, length, slice_index, sum_by};
ghost use Rattle.fixed_place.specs.Rounding.{most};

use crate::lane::Lane;
use fixed_place::{Amount, Amounts};

/// Fills a tally with what all lanes have counted.
pub(crate) fn gather<const P: usize>(lanes: &[Lane], tally: &mut Amounts<P>)
    requires of_all { All (λ lane. length lane.tally ≡ length tally.old) lanes.now }
    requires room { (p : ℕ) → p < length tally.old → sum_by (λ lane. slice_index lane.tally p) lanes.now ≤ most P }
    ensures same_length { length tally.new ≡ length tally.old }
    ensures sums { (p : ℕ) → p < length tally.old → slice_index tally.new p ≡ sum_by (λ lane. slice_index lane.tally p) lanes.now }
{
    for p in 0..tally.len() {
        tally.set(p, Amount::from_units(sum_at(lanes, p)));
    }
}

/// What all lanes have counted at a place.
fn sum_at(lanes: &[Lane], p: usize) -> u64
    requires inside { All (λ lane. p < length lane.tally) lanes.now }
    requires room { sum_by (λ lane. slice_index lane.tally p) lanes.now < 2 ^ 64 }
    ensures { result ≡ sum_by (λ lane. slice_index lane.tally p) lanes.now }
{
    let mut sum = 0;
    for lane in lanes {
        sum += lane.tally()[p];
    }
    sum
}
