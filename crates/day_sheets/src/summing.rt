// The count of what is at the end, and its summary.
ghost use Rattle.std.specs.Prelude.{◌≡◌, ◌≤◌};
ghost use Rattle.batch_core.specs.Histories.{IsLegal};
ghost use Rattle.vote_spread.specs.declared.limits.TheConstants.{MOST_WORKERS};
ghost use Rattle.lane_sheet.specs.Due.{WritesOrWants};
ghost use Rattle.day_sheets.specs.MadeDay.{made_day};
ghost use Rattle.day_lines.specs.DayText.{terms_of};
ghost use Rattle.day_sheets.specs.Standing.{HaveNumbers};
ghost use Rattle.day_sheets.specs.Summary.{AreLastStanding, IsSummary};

use crate::{NoMemory, SummaryText};
use byte_edge::{Failed, Gate, Sink};
use candidate_roll::Roll;
use day_lines::Terms;
use frozen_plan::Plans;
use lane_sheet::{Crew, Polls, write_in_lanes};
use meek_count::counts_are_unique;
use std::slice;
use std::thread::Threads;

/// Counts in lanes what stands after all calls of a made day, and writes the summary. All memory is taken
/// before the first byte.
pub fn sum_up<R: Threads + Sync, G: Gate + Sync, K: Sink>(
    crew: &Crew<'_, R, G>,
    text: &SummaryText<'_>,
    terms: &Terms,
    roll: &Roll,
    standing: Plans,
    sink: &mut K,
) -> Result<Result<(), Failed>, NoMemory>
    requires workers { (1 ≤ crew.now.workers) × (crew.now.workers ≤ MOST_WORKERS) }
    requires terms { terms.now ≡ terms_of (made_day text.now.number) }
    requires legal { IsLegal text.now.history.now }
    requires numbers { HaveNumbers text.now.history.now }
    requires stands { AreLastStanding terms.now text.now.history.now roll.now standing }
    ensures { WritesOrWants (IsSummary text.now.number terms.now text.now.history.now)
        K.written K.faults sink.old sink.new result }
{
    // The count of the plans' ballots is that of the ballots that stand, in whatever order.
    counts_are_unique();
    let plans = vec![in crew.alloc; standing]?;
    let polls = Polls {
        rolls: slice::from_ref(roll),
        lots: &terms.lots,
        omega: terms.omega,
    };
    let wrote = write_in_lanes::<9, R, G, SummaryText<'_>, K>(crew, plans, &polls, text, sink)?;
    Ok(wrote)
}
