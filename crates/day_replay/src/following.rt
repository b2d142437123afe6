// A text that is followed, call by call.
ghost use Rattle.std.specs.Prelude.{◌≡◌, ◌+◌, ◌≤◌, [], ◌++◌, List, ℕ, All, IfOk, OnOk, length};
ghost use Rattle.batch_core.specs.declared.limits.TheConstants.{MOST_TEAMS};
ghost use Rattle.plain_ballots.specs.declared.limits.TheConstants.{MOST_CANDIDATES};
ghost use Rattle.batch_core.specs.declared.entry.Entry.{Entry};
ghost use Rattle.day_reader.specs.declared.script.Script.{Script};
ghost use Rattle.day_reader.specs.Said.{AreScripts, IsAnswerable};
ghost use Rattle.day_lines.specs.DayHistory.{IsHistoryOf};
ghost use Rattle.day_replay.specs.Calls.{AreAnswerable, HasCalled, IsUnderWay, calls_left, left_of};
ghost use Rattle.day_replay.specs.Nearest.{IsNearest, HasFollowed};

use crate::NoMemory;
use crate::left::Left;
use crate::lines::{next_line, team_said};
use crate::replay::Replay;
use batch_core::{Call, a_book_answers_a_history, a_legal_history_has_the_books_replies};
use call_register::History;
use day_reader::Scripts;
use std::alloc::Global;

/// The history of these scripts whose calls are those of a text's lines for as long as they are those of
/// any history of the scripts. After them each team makes the calls that it has left, one team after the
/// other, and last the clerk freezes. What a line says of a reply isn't read.
pub fn follow(
    alloc: Global,
    candidates: u32,
    scripts: Scripts,
    text: &[u8],
) -> Result<History, NoMemory>
    requires candidates { (1 ≤ candidates) × (candidates ≤ MOST_CANDIDATES) }
    requires scripts { AreScripts candidates scripts }
    ensures history { IfOk result (IsHistoryOf scripts) }
    ensures answerable { IfOk result (All (λ e. IsAnswerable candidates e.call)) }
    ensures nearest { IfOk result (IsNearest scripts text.now) }
{
    a_book_answers_a_history();
    a_legal_history_has_the_books_replies();
    let mut left = Left::of(alloc, scripts)?;
    let mut replay = Replay::new(alloc, candidates);
    follow_lines(alloc, &mut replay, &mut left, text)?;
    make_the_rest(alloc, &mut replay, &mut left)?;
    replay.answer(alloc, 0, Call::Freeze)?;
    Ok(replay.finish())
}

/// Makes the calls that the lines of a text say one after another, up to the first line that names no team
/// with calls left.
fn follow_lines(
    alloc: Global,
    replay: &mut Replay,
    left: &mut Left,
    text: &[u8],
) -> Result<(), NoMemory>
    requires begins { replay.old.history ≡ [] }
    requires teams { length left.old.teams.items ≡ MOST_TEAMS }
    requires answerable { AreAnswerable replay.old.candidates left.old.teams.items }
    ensures candidates { OnOk result (replay.new.candidates ≡ replay.old.candidates) }
    ensures teams { OnOk result (length left.new.teams.items ≡ MOST_TEAMS) }
    ensures answerable { OnOk result (AreAnswerable replay.new.candidates left.new.teams.items) }
    ensures way { OnOk result ((scripts : List Script) → IsUnderWay scripts left.old.teams.items replay.old.history
        → IsUnderWay scripts left.new.teams.items replay.new.history) }
    ensures followed { OnOk result (HasFollowed text.now left.new.teams.items replay.new.history) }
{
    let (mut line, mut rest) = next_line(text);
    'lines: while let Some(team) = team_said(line, replay.calls() + 1, left) {
        make(alloc, replay, left, team)?;
        let (next, behind) = next_line(rest);
        line = next;
        rest = behind;
    }
    Ok(())
}

/// Makes all calls that are left, one team after the other.
fn make_the_rest(alloc: Global, replay: &mut Replay, left: &mut Left) -> Result<(), NoMemory>
    requires teams { length left.old.teams.items ≡ MOST_TEAMS }
    requires answerable { AreAnswerable replay.old.candidates left.old.teams.items }
    ensures candidates { OnOk result (replay.new.candidates ≡ replay.old.candidates) }
    ensures way { OnOk result ((scripts : List Script) → IsUnderWay scripts left.old.teams.items replay.old.history
        → IsUnderWay scripts left.new.teams.items replay.new.history) }
    ensures none { OnOk result ((team : ℕ) → 1 ≤ team → left_of left.new.teams.items team ≡ []) }
    ensures more { OnOk result ((more : List Entry) × (replay.new.history ≡ replay.old.history ++ more)) }
{
    'calls: while let Some(team) = left.first() {
        make(alloc, replay, left, team)?;
    }
    Ok(())
}

/// Makes the next call of a team that has calls left.
fn make(alloc: Global, replay: &mut Replay, left: &mut Left, team: u32) -> Result<(), NoMemory>
    requires teams { length left.old.teams.items ≡ MOST_TEAMS }
    requires team { (1 ≤ team) × (team ≤ MOST_TEAMS) }
    requires some { 1 ≤ length (left_of left.old.teams.items team) }
    requires answerable { AreAnswerable replay.old.candidates left.old.teams.items }
    ensures candidates { OnOk result (replay.new.candidates ≡ replay.old.candidates) }
    ensures teams { OnOk result (length left.new.teams.items ≡ MOST_TEAMS) }
    ensures answerable { OnOk result (AreAnswerable replay.new.candidates left.new.teams.items) }
    ensures way { OnOk result ((scripts : List Script) → IsUnderWay scripts left.old.teams.items replay.old.history
        → IsUnderWay scripts left.new.teams.items replay.new.history) }
    ensures one { OnOk result (HasCalled team replay.old.history replay.new.history) }
    ensures fewer { OnOk result (calls_left left.new.teams.items + 1 ≡ calls_left left.old.teams.items) }
{
    a_book_answers_a_history();
    let call = left.take(team);
    replay.answer(alloc, team, call)
}
