// A trial: a day that is made from a number is played, and its summary is written.
ghost use Rattle.std.specs.Prelude.{◌≡◌, ◌≤◌, ◌++◌, ◌∷◌, [], List, length, true, IfOk};
ghost use Rattle.day_reader.specs.Said.{AreScripts};
ghost use Rattle.batch_core.specs.Histories.{IsLegal};
ghost use Rattle.frozen_version.specs.Versions.{VersionState};
ghost use Rattle.meek_trial.specs.declared.day.TheConstants.{MOST_TRIAL};
ghost use Rattle.lane_sheet.specs.Due.{WritesOrWants};
ghost use Rattle.tool_edge.specs.Streams.{writing};
ghost use Rattle.day_sheets.specs.MadeDay.{made_day};
ghost use Rattle.day_lines.specs.DayText.{terms_of};
ghost use Rattle.day_sheets.specs.Frozen.{AreFrozen};
ghost use Rattle.day_lines.specs.DayHistory.{EndsWithTheClerk};
ghost use Rattle.day_sheets.specs.Standing.{HaveNumbers};
ghost use Rattle.day_sheets.specs.Summary.{IsSummary};
ghost use Rattle.meek_cli.specs.Run.{FinishesTrial, PlaysTrial};

use crate::day::answer;
use crate::hands::Hands;
use crate::played_day::PlayedDay;
use crate::{NoMemory, Outcome, Status};
use ballot_count::end_after;
use byte_edge::{Failed, Gate, Sink};
use day_lines::Terms;
use day_reader::Day;
use day_sheets::{SummaryText, read_made_day, sum_up};
use shard_office::Version;
use std::sync::Wait;
use std::thread::Threads;
use team_run::Versions;

/// Plays the day of a number, and writes its summary.
pub(crate) fn play_trial<R: Threads + Wait + Sync, G: Gate + Sync, K: Sink>(
    hands: &Hands<'_, R, G>,
    number: u32,
    sink: &mut K,
) -> Outcome
    requires { (1 ≤ number) × (number ≤ MOST_TRIAL) }
    ensures { FinishesTrial number result.status result.history
        (writing K.written K.faults sink.old sink.new) }
{
    match read_made_day(hands.alloc, number) {
        Ok(day) => play(hands, number, day, sink),
        Err(_) => Outcome::without_calls(hands.alloc, Status::NoMemory),
    }
}

/// Answers all calls of a made day, counts what stood at the clerk's freeze, and writes the summary.
fn play<R: Threads + Wait + Sync, G: Gate + Sync, K: Sink>(
    hands: &Hands<'_, R, G>,
    number: u32,
    day: Day,
    sink: &mut K,
) -> Outcome
    requires scripts { AreScripts (length day.roll.names) day.scripts }
    requires made { day ≡ made_day number }
    ensures { PlaysTrial number day result.status result.history
        (writing K.written K.faults sink.old sink.new) }
{
    let Ok(played) = answer(hands, day) else {
        return Outcome::without_calls(hands.alloc, Status::NoMemory);
    };
    let PlayedDay {
        terms,
        history,
        versions,
    } = played;
    let text = SummaryText {
        number,
        history: &history,
    };
    let wrote = sum_up_last(hands, &text, &terms, versions, sink);
    match end_after(sink, wrote) {
        Status::NoMemory => Outcome::without_calls(hands.alloc, Status::NoMemory),
        status => Outcome { status, history },
    }
}

/// Counts what stood at the clerk's freeze, and writes the summary. All memory is taken before the first byte.
fn sum_up_last<R: Threads + Sync, G: Gate + Sync, K: Sink>(
    hands: &Hands<'_, R, G>,
    text: &SummaryText<'_>,
    terms: &Terms,
    versions: Versions,
    sink: &mut K,
) -> Result<Result<(), Failed>, NoMemory>
    requires terms { terms.now ≡ terms_of (made_day text.now.number) }
    requires legal { IsLegal text.now.history.now }
    requires ends { EndsWithTheClerk text.now.history.now }
    requires numbers { HaveNumbers text.now.history.now }
    requires frozen { AreFrozen (length terms.now.roll.names) text.now.history.now versions }
    ensures { WritesOrWants (IsSummary text.now.number terms.now text.now.history.now)
        K.written K.faults sink.old sink.new result }
{
    let version = last_of(versions);
    let roll = terms.roll.with_struck(hands.alloc, version.struck())?;
    sum_up(
        &hands.crew(),
        text,
        terms,
        &roll,
        version.into_plans(),
        sink,
    )
}

/// The version of the last freeze.
fn last_of(mut versions: Versions) -> Version
    requires { 1 ≤ length versions }
    ensures { (before : List VersionState) × (versions ≡ before ++ result ∷ []) }
{
    match versions.pop() {
        Some(version) => version,
        None => unreachable!(),
    }
}
