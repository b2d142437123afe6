// The tool that shows a day's first preferences.
ghost use Rattle.std.specs.Prelude.{◌≡◌, ◌≤◌, List, map, length, All, IfOk};
ghost use Rattle.std.specs.String.{string_bytes};
ghost use Rattle.plain_ballots.specs.declared.limits.TheConstants.{MOST_CANDIDATES};
ghost use Rattle.tool_edge.specs.declared.opening.TheConstants.{DAY_LIMIT};
ghost use Rattle.plain_ballots.specs.Ballots.{plain};
ghost use Rattle.batch_core.specs.declared.entry.Entry.{Entry};
ghost use Rattle.batch_core.specs.Histories.{standing_after};
ghost use Rattle.day_reader.specs.Said.{IsAnswerable};
ghost use Rattle.tool_edge.specs.Finishing.{FinishesOwed};
ghost use Rattle.tool_edge.specs.Streams.{reading, writing};
ghost use Rattle.tool_edge.specs.Tool.{IsOwedFor, IsRun, no_history};
ghost use Rattle.tally_cli.specs.Changes.{IsHistoryOf};
ghost use Rattle.tally_cli.specs.First.{first};
ghost use Rattle.tally_cli.specs.Owed.{over_days, total_lines};

use crate::NoMemory;
use crate::hall::Hall;
use crate::opening::open_hall;
use crate::scripts::play;
use crate::text::text_of;
use batch_core::a_book_answers_a_history;
use byte_edge::{Sink, Source};
use day_reader::{Script, accepts_days, read_day, refuses_by_the_rule};
use std::alloc::Global;
use std::sync::Wait;
use tool_edge::{DAY_LIMIT, End, finish, open, refuse_input, takes_nothing};

/// Shows the first preferences of a day on a board, change by change, and writes the last totals.
pub fn tally<R: Wait, S: Source, K: Sink>(
    rt: &R,
    alloc: Global,
    words: &[String],
    source: &mut S,
    sink: &mut K,
) -> End
    ensures { IsRun over_days (map string_bytes words.now)
        (reading S.left S.faults source.old source.new)
        (writing K.written K.faults sink.old sink.new) result no_history }
{
    accepts_days();
    refuses_by_the_rule();
    let asked = takes_nothing(words);
    let opened = match open(alloc, asked, DAY_LIMIT, source, sink) {
        Ok(opened) => opened,
        Err(end) => return end,
    };
    tally_input(rt, alloc, opened.asked, opened.input.as_slice(), sink)
}

fn tally_input<R: Wait, K: Sink>(
    rt: &R,
    alloc: Global,
    asked: (),
    input: &[u8],
    sink: &mut K,
) -> End
    requires { length input.now ≤ DAY_LIMIT }
    ensures { FinishesOwed (IsOwedFor over_days asked input.now no_history) result
        (writing K.written K.faults sink.old sink.new) }
{
    let day = match read_day(alloc, input) {
        Ok(day) => day,
        Err(stop) => return refuse_input(sink, stop),
    };
    match tally_scripts(rt, alloc, day.roll.candidates(), day.scripts.items()) {
        Ok(text) => finish(sink, End::Done, text.as_slice()),
        Err(_) => End::NoMemory,
    }
}

/// The text of the totals after the changes of all scripts.
fn tally_scripts<R: Wait>(
    rt: &R,
    alloc: Global,
    candidates: u32,
    scripts: &[Script],
) -> Result<Vec<u8>, NoMemory>
    requires candidates { (1 ≤ candidates) × (candidates ≤ MOST_CANDIDATES) }
    requires answerable { All (λ script. All (IsAnswerable candidates) script.calls) scripts.now }
    ensures { IfOk result (λ text. (history : List Entry) × IsHistoryOf scripts.now history
        × (text.items ≡ total_lines candidates (first (plain (standing_after history (length history)))))) }
{
    a_book_answers_a_history();
    let mut hall = open_hall(rt, alloc, candidates)?;
    let text = match play(rt, alloc, &mut hall, scripts) {
        Ok(()) => text_of(alloc, hall.scribe.totals().items()),
        Err(stop) => Err(stop),
    };
    let Hall {
        book: _,
        scribe,
        kept: _,
    } = hall;
    scribe.close(rt);
    text
}
