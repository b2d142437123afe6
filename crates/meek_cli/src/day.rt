// A day: from the bytes of a day file to its text.
ghost use Rattle.std.specs.Prelude.{◌≡◌, ◌≤◌, length, IfOk};
ghost use Rattle.tool_edge.specs.declared.opening.TheConstants.{DAY_LIMIT};
ghost use Rattle.day_reader.specs.Said.{AreScripts};
ghost use Rattle.lane_sheet.specs.Due.{WritesOrWants};
ghost use Rattle.tool_edge.specs.Streams.{writing};
ghost use Rattle.day_lines.specs.DayHistory.{IsHistoryOf};
ghost use Rattle.day_lines.specs.DayText.{terms_of, IsDayText};
ghost use Rattle.day_sheets.specs.Frozen.{AreFrozen};
ghost use Rattle.meek_cli.specs.Run.{FinishesDay, PlaysDay};

use crate::day_counting::count_day;
use crate::hands::Hands;
use crate::office::answer_day;
use crate::played_day::PlayedDay;
use crate::{NoMemory, Outcome, Status};
use ballot_count::end_after;
use byte_edge::{Failed, Gate, Sink};
use call_register::History;
use day_lines::Terms;
use day_reader::{Day, read_day};
use std::sync::Wait;
use std::thread::Threads;
use team_run::Versions;
use tool_edge::refuse_input;

/// Plays the day of a file, and writes its text or the refusal. The bytes are let go before the first call
/// is answered.
pub(crate) fn play_day<R: Threads + Wait + Sync, G: Gate + Sync, K: Sink>(
    hands: &Hands<'_, R, G>,
    input: Vec<u8>,
    sink: &mut K,
) -> Outcome
    requires { length input.items ≤ DAY_LIMIT }
    ensures { FinishesDay input.items result.status result.history
        (writing K.written K.faults sink.old sink.new) }
{
    let read = read_day(hands.alloc, input.as_slice());
    drop(input);
    match read {
        Ok(day) => play(hands, day, sink),
        Err(stop) => Outcome::without_calls(hands.alloc, refuse_input(sink, stop)),
    }
}

/// Answers all calls of a day, counts what stood at each freeze, and writes the text.
fn play<R: Threads + Wait + Sync, G: Gate + Sync, K: Sink>(
    hands: &Hands<'_, R, G>,
    day: Day,
    sink: &mut K,
) -> Outcome
    requires scripts { AreScripts (length day.roll.names) day.scripts }
    requires lots { length day.lots ≡ length day.roll.names }
    requires places { (6 ≤ day.places) × (day.places ≤ 9) }
    ensures { PlaysDay day result.status result.history
        (writing K.written K.faults sink.old sink.new) }
{
    let Ok(played) = answer(hands, day) else {
        return Outcome::without_calls(hands.alloc, Status::NoMemory);
    };
    let PlayedDay {
        terms,
        history,
        versions,
    } = played;
    let wrote = count_at_places(hands, &terms, &history, versions, sink);
    match end_after(sink, wrote) {
        Status::NoMemory => Outcome::without_calls(hands.alloc, Status::NoMemory),
        status => Outcome { status, history },
    }
}

/// Answers all calls of a day.
pub(crate) fn answer<R: Threads + Wait + Sync, G: Gate + Sync>(
    hands: &Hands<'_, R, G>,
    day: Day,
) -> Result<PlayedDay, NoMemory>
    requires { AreScripts (length day.roll.names) day.scripts }
    ensures terms { IfOk result (λ played. played.terms ≡ terms_of day) }
    ensures history { IfOk result (λ played. IsHistoryOf day.scripts played.history) }
    ensures frozen { IfOk result (λ played. AreFrozen (length day.roll.names) played.history played.versions) }
{
    let Day {
        roll,
        lots,
        places,
        omega,
        scripts,
    } = day;
    let candidates = roll.candidates();
    let (history, versions) = answer_day(hands, candidates, scripts)?;
    let terms = Terms {
        places,
        omega,
        roll,
        lots,
    };
    Ok(PlayedDay {
        terms,
        history,
        versions,
    })
}

/// Counts at the places that the day says.
fn count_at_places<R: Threads + Sync, G: Gate + Sync, K: Sink>(
    hands: &Hands<'_, R, G>,
    terms: &Terms,
    history: &History,
    versions: Versions,
    sink: &mut K,
) -> Result<Result<(), Failed>, NoMemory>
    requires places { (6 ≤ terms.now.places) × (terms.now.places ≤ 9) }
    requires lots_of_all { length terms.now.lots ≡ length terms.now.roll.names }
    requires frozen { AreFrozen (length terms.now.roll.names) history.now versions }
    ensures { WritesOrWants (IsDayText terms.now history.now)
        K.written K.faults sink.old sink.new result }
{
    macro_rules! at_places {
        ($($places:literal)*) => {
            match terms.places {
                $($places => count_day::<$places, R, G, K>(hands, terms, history, versions, sink),)*
                _ => unreachable!(),
            }
        };
    }
    at_places!(6 7 8 9)
}
