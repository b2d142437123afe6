// A text compared with the text of a history.
ghost use Rattle.std.specs.Prelude.{◌≡◌, ◌≤◌, IfOk, length, map};
ghost use Rattle.sheet_check.specs.Comparison.{IsCompared};
ghost use Rattle.day_lines.specs.DayText.{IsDayText, roll_with};
ghost use Rattle.day_sheets.specs.Frozen.{AreFrozen};

use crate::frozen_sheets::plans_of;
use crate::{Frozen, NoMemory};
use byte_edge::FreeGate;
use candidate_roll::Roll;
use day_lines::Terms;
use day_sheets::DayText;
use lane_sheet::{Crew, Polls, write_in_lanes};
use sheet_check::Comparing;
use sheet_text::sheets_are_unique;
use std::alloc::Global;
use std::thread::Threads;

/// Those who count for an audit: one worker, with one plan of all ballots.
pub(crate) fn crew_of<R>(rt: &R, alloc: Global) -> Crew<'_, R, FreeGate>
    ensures { result.workers ≡ 1 }
{
    Crew {
        rt,
        alloc,
        gate: &FreeGate,
        shards: 1,
        workers: 1,
    }
}

/// The first line in which a text differs from the text of this history, counted by these rolls at so many places, none
/// where it is that text. What is counted is kept nowhere; the count ends where the first
/// difference is found.
pub(crate) fn first_difference<const P: usize, R: Threads + Sync>(
    rt: &R,
    alloc: Global,
    text: &[u8],
    terms: &Terms,
    rolls: &[Roll],
    due: &DayText<'_>,
    frozen: Vec<Frozen>,
) -> Result<Option<u64>, NoMemory>
    requires places { (6 ≤ P) × (P ≤ 9) }
    requires of_terms { terms.now.places ≡ P }
    requires lots_of_all { length terms.now.lots ≡ length terms.now.roll.names }
    requires frozen { AreFrozen (length terms.now.roll.names) due.now.history.now frozen.items }
    requires rolls { rolls.now ≡ map (λ version. roll_with terms.now.roll version.struck) frozen.items }
    requires freezes { due.now.places.now ≡ map (λ version. version.at) frozen.items }
    ensures { IfOk result (IsCompared (IsDayText terms.now due.now.history.now) text.now) }
{
    // The sheet of a plan's ballots is that of the ballots that stand, in whatever order.
    sheets_are_unique();
    let plans = plans_of(alloc, frozen, terms.roll.candidates())?;
    let crew = crew_of(rt, alloc);
    let polls = Polls {
        rolls,
        lots: &terms.lots,
        omega: terms.omega,
    };
    let mut sink = Comparing::new(text);
    match write_in_lanes::<P, R, FreeGate, DayText<'_>, Comparing<'_>>(
        &crew, plans, &polls, due, &mut sink,
    )? {
        Ok(()) => Ok(sink.difference_from_whole()),
        Err(_) => Ok(Some(sink.difference_from_front())),
    }
}
