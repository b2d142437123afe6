// A whole run.
ghost use Rattle.std.specs.Prelude.{◌≤◌, length, map, string_bytes};
ghost use Rattle.tool_edge.specs.declared.opening.TheConstants.{FILE_LIMIT};
ghost use Rattle.tool_edge.specs.Finishing.{FinishesOwed};
ghost use Rattle.tool_edge.specs.Streams.{reading, writing};
ghost use Rattle.tool_edge.specs.Tool.{IsOwedFor, IsRun, no_history};
ghost use Rattle.import_words.specs.Asks.{AreEnough};
ghost use Rattle.blt_import.specs.Owed.{import_tool, Refuses};

use crate::ImportFault;
use crate::form::read_form;
use crate::read_stop::ReadStop;
use crate::report::report;
use crate::writing::write_ballots;
use byte_edge::{Sink, Source};
use import_words::{Asked, Output, read_import_words, words_ask_one_thing};
use std::alloc::Global;
use std::thread::Threads;
use tool_edge::{End, FILE_LIMIT, finish, open, refuse};

/// Writes the canonical text of the ballots that the source gives, or a report on them. The words say how they are read, and
/// what is written. All memory is taken before the first byte. The lines are put in order in threads, where there
/// are any to be had.
pub fn import<R: Threads + Sync, S: Source, K: Sink>(
    rt: &R,
    alloc: Global,
    words: &[String],
    source: &mut S,
    sink: &mut K,
) -> End<ImportFault>
    ensures { IsRun import_tool (map string_bytes words.now)
        (reading S.left S.faults source.old source.new) (writing K.written K.faults sink.old sink.new)
        result no_history }
{
    words_ask_one_thing();
    let asked = read_import_words(alloc, words);
    match open(alloc, asked, FILE_LIMIT, source, sink) {
        Ok(opened) => import_input(rt, alloc, &opened.asked, opened.input.as_slice(), sink),
        Err(end) => end,
    }
}

/// Writes what is asked for of a whole input, or its refusal.
fn import_input<R: Threads + Sync, K: Sink>(
    rt: &R,
    alloc: Global,
    asked: &Asked,
    input: &[u8],
    sink: &mut K,
) -> End<ImportFault>
    requires short { length input.now ≤ FILE_LIMIT }
    requires enough { AreEnough asked.now.layout asked.now.roll.candidates }
    ensures { FinishesOwed (IsOwedFor import_tool asked.now input.now no_history) result
        (writing K.written K.faults sink.old sink.new) }
{
    match read_form(alloc, asked, input) {
        Ok(read) => match asked.output {
            Output::Blt => write_ballots(rt, alloc, &asked.roll, read, sink),
            Output::Report => finish(sink, End::Done, report(read.tally).bytes()),
        },
        Err(stop) => refuse_input(sink, stop),
    }
}

/// Answers what stopped the reading of an input: a fault by its line.
fn refuse_input<K: Sink>(sink: &mut K, stop: ReadStop) -> End<ImportFault>
    ensures { Refuses stop result (writing K.written K.faults sink.old sink.new) }
{
    match stop {
        ReadStop::Fault(fault) => refuse(sink, fault),
        ReadStop::NoMemory => End::NoMemory,
    }
}
