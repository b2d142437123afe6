// A walk over rows.
ghost use Rattle.std.specs.Prelude.{◌≡◌, ℕ, ◌+◌, ◌*◌, ◌^◌, ◌<◌, ◌≤◌, All, length, slice_index, slice_set};
ghost use Rattle.vote_spread.specs.declared.depths.TheConstants.{DEPTHS};
ghost use Rattle.vote_spread.specs.Gain.{gain, past};
ghost use Rattle.vote_spread.specs.Rows.{row_stem, seen, IsRow, total};

use crate::leaving::Leaving;
use crate::row::Row;

/// Fills the tally with what the ballots of rows give to each candidate.
pub(crate) fn walk(rows: &[Row], leaving: &Leaving, weights: &mut [u64], tally: &mut [u64])
    requires rows { All (IsRow (length tally.old)) (seen rows.now) }
    requires keeps_of_all { length leaving.now.keeps ≡ length tally.old }
    requires depths { length weights.old ≡ DEPTHS }
    requires room { (p : ℕ) → p < length tally.old → total leaving.now.one leaving.now.keeps (p + 1) (seen rows.now) < 2 ^ 64 }
    ensures depths { length weights.new ≡ DEPTHS }
    ensures same_length { length tally.new ≡ length tally.old }
    ensures total { (p : ℕ) → p < length tally.old → slice_index tally.new p ≡ total leaving.now.one leaving.now.keeps (p + 1) (seen rows.now) }
{
    tally.fill(0);
    weights.fill(0);
    weights[0] = leaving.one();
    for row in rows {
        visit(*row, leaving, weights, tally);
    }
}

/// Sets the weight after a row, and adds to the tally what its ballots give to its candidate.
fn visit(row: Row, leaving: &Leaving, weights: &mut [u64], tally: &mut [u64])
    requires depth { (1 ≤ row.depth) × (row.depth < length weights.old) }
    requires candidate { (1 ≤ row.candidate) × (row.candidate ≤ length tally.old) }
    requires keeps_of_all { length leaving.now.keeps ≡ length tally.old }
    requires light { All (λ w. w ≤ leaving.now.one) weights.old }
    requires room { (p : ℕ) → p < length tally.old → slice_index tally.old p + gain leaving.now.one leaving.now.keeps (p + 1) weights.old (row_stem row.depth row.candidate row.ballots) < 2 ^ 64 }
    ensures weights { weights.new ≡ past leaving.now.one leaving.now.keeps weights.old (row_stem row.depth row.candidate row.ballots) }
    ensures still_light { All (λ w. w ≤ leaving.now.one) weights.new }
    ensures same_length { length tally.new ≡ length tally.old }
    ensures gives { (p : ℕ) → p < length tally.old → slice_index tally.new p ≡ slice_index tally.old p + gain leaving.now.one leaving.now.keeps (p + 1) weights.old (row_stem row.depth row.candidate row.ballots) }
{
    let weight = weights[row.depth as usize - 1];
    let left = leaving.left(weight, row.candidate);
    weights[row.depth as usize] = left;
    let place = row.candidate as usize - 1;
    give(row.ballots as u64, place, weight - left, tally);
}

/// Adds to a candidate's place in the tally what it keeps of each of so many ballots.
fn give(ballots: u64, place: usize, kept: u64, tally: &mut [u64])
    requires place { place < length tally.old }
    requires room { slice_index tally.old place + ballots * kept < 2 ^ 64 }
    ensures { tally.new ≡ slice_set tally.old place (slice_index tally.old place + ballots * kept) }
{
    tally[place] += ballots * kept;
}
