// Counts that were just begun.
ghost use Rattle.std.specs.Prelude.{◌≡◌, ◌≤◌, All, IfOk, length, map};
ghost use Rattle.lane_sheet.specs.Due.{dues_of, HasSheet};
ghost use Rattle.lane_sheet.specs.Plans.{AreReady};

use crate::{BegunCount, NoMemory};
use candidate_roll::Roll;
use fixed_place::Omega;
use lot_order::Lots;
use meek_rule::Spread;
use std::alloc::Global;

/// Begins to count what each distribution holds, by the roll at its place.
pub fn begin_counts<'e, const P: usize, D: Spread<P>>(
    alloc: Global,
    rolls: &'e [Roll],
    lots: &'e Lots,
    omega: Omega,
    spreads: &'e mut [D],
) -> Result<Vec<BegunCount<'e, P, D>>, NoMemory>
    requires places { (6 ≤ P) × (P ≤ 9) }
    requires ready { AreReady D.rule D.ballots D.candidates D.can_spread (length lots.now) rolls.now spreads.old }
    ensures due { IfOk result (λ counts. counts.items ≡ dues_of omega lots.now rolls.now (map D.ballots spreads.old)) }
    ensures sheets { IfOk result (λ counts. All (HasSheet P) counts.items) }
{
    let mut counts = Vec::new(alloc);
    for (roll, spread) in rolls.iter().zip(spreads.iter_mut()) {
        let count = BegunCount::begin(alloc, roll, lots, omega, spread)?;
        if counts.push(count).is_err() {
            return Err(NoMemory);
        }
    }
    Ok(counts)
}
