// The whole program over a source and a sink.
ghost use Rattle.std.specs.Prelude.{map};
ghost use Rattle.std.specs.String.{string_bytes};
ghost use Rattle.tool_edge.specs.Streams.{reading, writing};
ghost use Rattle.tool_edge.specs.Tool.{IsRun};
ghost use Rattle.meek_cli.specs.Owed.{meek};

use crate::Outcome;
use crate::hands::Hands;
use crate::work::Work;
use byte_edge::{Gate, Sink, Source};
use day_reader::{accepts_days, refuses_by_the_rule};
use meek_words::words_have_one_command;
use std::alloc::Global;
use std::sync::Wait;
use std::thread::Threads;
use tool_edge::{contests_are_not_refused, contests_are_refused_once, refuse_words};

/// Does what the words ask for: reads the source to its end, judges it, and writes what is owed to the
/// sink, with one flush after the last byte. The words are read first, then the source, which a trial
/// leaves as it is; want of memory may end a run before its first byte is written, and never after it.
pub fn meek<R: Threads + Wait + Sync, S: Source, K: Sink, G: Gate + Sync>(
    rt: &R,
    alloc: Global,
    words: &[String],
    source: &mut S,
    sink: &mut K,
    gate: &G,
) -> Outcome
    ensures { IsRun meek (map string_bytes words.now)
        (reading S.left S.faults source.old source.new) (writing K.written K.faults sink.old sink.new)
        result.status result.history }
{
    // The laws by which an accepted run, and one that is to be refused, has no other answer.
    contests_are_not_refused();
    contests_are_refused_once();
    accepts_days();
    refuses_by_the_rule();
    words_have_one_command();
    let (work, split) = match Work::from_words(alloc, words) {
        Ok(asked) => asked,
        Err(stop) => return Outcome::without_calls(alloc, refuse_words(sink, stop)),
    };
    match work.read(alloc, source, sink) {
        Ok(input) => {
            let hands = Hands {
                rt,
                alloc,
                gate,
                split,
            };
            work.finish(&hands, input, sink)
        }
        Err(status) => Outcome::without_calls(alloc, status),
    }
}
