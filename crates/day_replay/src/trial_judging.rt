// A text judged as the summary of a made day.
ghost use Rattle.std.specs.Prelude.{◌≡◌, ◌≤◌, IfOk, length};
ghost use Rattle.batch_core.specs.Histories.{IsLegal};
ghost use Rattle.day_reader.specs.Said.{AreScripts};
ghost use Rattle.meek_trial.specs.declared.day.TheConstants.{MOST_TRIAL};
ghost use Rattle.sheet_check.specs.Comparison.{IsCompared};
ghost use Rattle.frozen_version.specs.Versions.{StandsIn};
ghost use Rattle.day_lines.specs.DayHistory.{IsHistoryOf};
ghost use Rattle.day_lines.specs.DayText.{terms_of};
ghost use Rattle.day_sheets.specs.MadeDay.{made_day};
ghost use Rattle.day_sheets.specs.Standing.{HaveNumbers};
ghost use Rattle.day_sheets.specs.Summary.{AreLastStanding, IsSummary};
ghost use Rattle.day_replay.specs.Judged.{DiffersFromSummary, IsTrialVerdict};

use crate::comparing::crew_of;
use crate::{DayVerdict, Frozen, NoMemory, follow, frozen_at};
use byte_edge::FreeGate;
use candidate_roll::Roll;
use day_lines::Terms;
use day_reader::{Day, Scripts};
use day_sheets::{SummaryText, made_days_have_one_summary, read_made_day, sum_up};
use frozen_plan::Plans;
use sheet_check::Comparing;
use std::alloc::Global;
use std::thread::Threads;

/// The verdict on a text that is held to be the summary of a made day. The day is made anew, its teams' calls are
/// made one team after the other, since no order gives another summary, and the summary is compared with the
/// text as it comes.
pub fn judge_trial<R: Threads + Sync>(
    rt: &R,
    alloc: Global,
    text: &[u8],
    number: u32,
) -> Result<DayVerdict, NoMemory>
    requires { (1 ≤ number) × (number ≤ MOST_TRIAL) }
    ensures { IfOk result (IsTrialVerdict number text.now) }
{
    let Day {
        roll,
        lots,
        places,
        omega,
        scripts,
    } = read_made_day(alloc, number)?;
    let terms = Terms {
        places,
        omega,
        roll,
        lots,
    };
    judge_made(rt, alloc, number, text, &terms, scripts)
}

/// The same by the made day's terms and its scripts.
fn judge_made<R: Threads + Sync>(
    rt: &R,
    alloc: Global,
    number: u32,
    text: &[u8],
    terms: &Terms,
    scripts: Scripts,
) -> Result<DayVerdict, NoMemory>
    requires terms { terms.now ≡ terms_of (made_day number) }
    requires made { scripts ≡ (made_day number).scripts }
    requires scripts { AreScripts (length terms.now.roll.names) scripts }
    ensures { IfOk result (IsTrialVerdict number text.now) }
{
    made_days_have_one_summary();
    match summary_difference(rt, alloc, text, number, terms, scripts)? {
        None => Ok(DayVerdict::True),
        Some(n) => Ok(DayVerdict::False(n)),
    }
}

/// The first line in which a text differs from the summary of a history of these scripts, none where it is that summary.
fn summary_difference<R: Threads + Sync>(
    rt: &R,
    alloc: Global,
    text: &[u8],
    number: u32,
    terms: &Terms,
    scripts: Scripts,
) -> Result<Option<u64>, NoMemory>
    requires terms { terms.now ≡ terms_of (made_day number) }
    requires made { scripts ≡ (made_day number).scripts }
    requires scripts { AreScripts (length terms.now.roll.names) scripts }
    ensures { IfOk result (DiffersFromSummary number terms.now scripts text.now) }
{
    let candidates = terms.roll.candidates();
    let history = follow(alloc, candidates, scripts, b"")?;
    let calls = history.entries().items().len();
    let version = frozen_at(rt, alloc, candidates, &history, calls)?;
    let summary = SummaryText {
        number,
        history: &history,
    };
    difference_from(rt, alloc, text, terms, &summary, version)
}

/// The first line in which a text differs from a summary, where this stood at its last freeze.
fn difference_from<R: Threads + Sync>(
    rt: &R,
    alloc: Global,
    text: &[u8],
    terms: &Terms,
    summary: &SummaryText<'_>,
    version: Frozen,
) -> Result<Option<u64>, NoMemory>
    requires terms { terms.now ≡ terms_of (made_day summary.now.number) }
    requires scripts { AreScripts (length terms.now.roll.names) (made_day summary.now.number).scripts }
    requires history { IsHistoryOf (made_day summary.now.number).scripts summary.now.history.now }
    requires at { version.at ≡ length summary.now.history.now }
    requires stands { StandsIn version summary.now.history.now }
    requires candidates { version.candidates ≡ length terms.now.roll.names }
    ensures { IfOk result (IsCompared (IsSummary summary.now.number terms.now summary.now.history.now) text.now) }
{
    let roll = terms.roll.with_struck(alloc, version.struck())?;
    compare_summary(rt, alloc, terms, summary, &roll, version.into_plans(), text)
}

/// The same, where it is summed up by this roll and these plans.
fn compare_summary<R: Threads + Sync>(
    rt: &R,
    alloc: Global,
    terms: &Terms,
    summary: &SummaryText<'_>,
    roll: &Roll,
    standing: Plans,
    text: &[u8],
) -> Result<Option<u64>, NoMemory>
    requires terms { terms.now ≡ terms_of (made_day summary.now.number) }
    requires legal { IsLegal summary.now.history.now }
    requires numbers { HaveNumbers summary.now.history.now }
    requires stands { AreLastStanding terms.now summary.now.history.now roll.now standing }
    ensures { IfOk result (IsCompared (IsSummary summary.now.number terms.now summary.now.history.now) text.now) }
{
    let mut sink = Comparing::new(text);
    match sum_up(
        &crew_of(rt, alloc),
        summary,
        terms,
        roll,
        standing,
        &mut sink,
    )? {
        Ok(()) => Ok(sink.difference_from_whole()),
        Err(_) => Ok(Some(sink.difference_from_front())),
    }
}
