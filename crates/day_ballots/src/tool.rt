// The tool that writes the ballots of a freeze.
ghost use Rattle.std.specs.Prelude.{◌≡◌, ◌≤◌, map, length};
ghost use Rattle.std.specs.String.{string_bytes};
ghost use Rattle.tool_edge.specs.Finishing.{FinishesOwed};
ghost use Rattle.tool_edge.specs.Streams.{reading, writing};
ghost use Rattle.tool_edge.specs.Tool.{IsOwedFor, IsRun, no_history};
ghost use Rattle.sheet_input.specs.declared.sheet_limit.TheConstants.{SHEET_LIMIT};
ghost use Rattle.day_ballots.specs.Ballots.{RefusesFile, exports_freezes};

use crate::writing::write_at;
use crate::{BallotsFault, takes_line};
use blt_reader::BltStop;
use byte_edge::{Sink, Source};
use day_audit::{ended, read_day_file, text_and_file};
use day_reader::{accepts_days, refuses_by_the_rule};
use number_word::words_have_one_number;
use sheet_input::SHEET_LIMIT;
use std::alloc::Global;
use std::thread::Threads;
use tool_edge::{End, Opened, open, refuse};

/// Writes the canonical ballot file of what is at the freeze of a line: the input is the text of a day, and
/// after it the day file. The candidates struck by then are withdrawn in it besides. Sheets are not compared.
pub fn ballots<R: Threads + Sync, S: Source, K: Sink>(
    rt: &R,
    alloc: Global,
    words: &[String],
    source: &mut S,
    sink: &mut K,
) -> End<BallotsFault>
    ensures { IsRun exports_freezes (map string_bytes words.now)
        (reading S.left S.faults source.old source.new) (writing K.written K.faults sink.old sink.new) result no_history }
{
    accepts_days();
    refuses_by_the_rule();
    words_have_one_number();
    let asked = takes_line(alloc, words);
    let Opened { asked: at, input } = match open(alloc, asked, SHEET_LIMIT, source, sink) {
        Ok(opened) => opened,
        Err(end) => return end,
    };
    write_ballots(rt, alloc, at, input.as_slice(), sink)
}

/// Writes the ballots of a line of the input's text.
fn write_ballots<R: Threads + Sync, K: Sink>(
    rt: &R,
    alloc: Global,
    at: u32,
    input: &[u8],
    sink: &mut K,
) -> End<BallotsFault>
    requires { length input.now ≤ SHEET_LIMIT }
    ensures { FinishesOwed (IsOwedFor exports_freezes at input.now no_history) result
        (writing K.written K.faults sink.old sink.new) }
{
    let Some((text, file)) = text_and_file(input) else {
        return refuse(sink, BallotsFault::File(ended(input.len())));
    };
    match read_day_file(alloc, file) {
        Ok(day) => write_at(rt, alloc, at, text, day, sink),
        Err(stop) => refuse_file(sink, stop),
    }
}

/// Refuses an input whose day file was not read.
pub(crate) fn refuse_file<K: Sink>(sink: &mut K, stop: BltStop) -> End<BallotsFault>
    ensures { RefusesFile stop result (writing K.written K.faults sink.old sink.new) }
{
    match stop {
        BltStop::Fault(fault) => refuse(sink, BallotsFault::File(fault)),
        BltStop::NoMemory => End::NoMemory,
    }
}
