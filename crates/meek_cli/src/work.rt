// What a run is asked to do.
ghost use Rattle.std.specs.Prelude.{◌≡◌, map, IfOk, IfErr, OnOk};
ghost use Rattle.std.specs.String.{string_bytes};
ghost use Rattle.tool_edge.specs.Opening.{IsWithin, ReadsAll, StopsReading};
ghost use Rattle.tool_edge.specs.Refusals.{file_refusals};
ghost use Rattle.tool_edge.specs.Streams.{reading, writing};
ghost use Rattle.tool_edge.specs.Tool.{Works};
ghost use Rattle.meek_cli.specs.Owed.{meek};
ghost use Rattle.meek_cli.specs.Work.{AsksFor, IsNumbered, limit_of};

use crate::counting::count;
use crate::day::play_day;
use crate::hands::Hands;
use crate::split::Split;
use crate::trial::play_trial;
use crate::{Outcome, Status};
use byte_edge::{Gate, Sink, Source};
use meek_words::{Command, LotWords, WordsStop, read_words};
use std::alloc::Global;
use std::sync::Wait;
use std::thread::Threads;
use tool_edge::{DAY_LIMIT, FILE_LIMIT, read_input};

/// What a run is asked to do.
#[derive(Drop)]
pub(crate) enum Work {
    /// To count a ballot file by these lots.
    Count(LotWords),
    /// To play the day of a day file.
    Day,
    /// To play the day that is made from this number, of 1 to 1,000.
    Trial(u32),
}

impl Work {
    /// What the words ask for, and how the ballots are to be shared.
    pub(crate) fn from_words(alloc: Global, words: &[String]) -> Result<(Work, Split), WordsStop>
        ensures asked { IfOk result (λ asked. AsksFor (map string_bytes words.now) asked.0) }
        ensures numbered { IfOk result (λ asked. IsNumbered asked.0) }
        ensures none { result ≡ Err WordsStop.BadWords
            → (work : Work) → ¬ AsksFor (map string_bytes words.now) work }
    {
        match read_words(alloc, words) {
            Ok(
                Command::Count {
                    lots,
                    shards,
                    workers,
                },
            ) => Ok((Work::Count(lots), Split::new(shards, workers))),
            Ok(Command::Day { shards, workers }) => Ok((Work::Day, Split::new(shards, workers))),
            Ok(
                Command::Trial {
                    number,
                    shards,
                    workers,
                },
            ) => Ok((Work::Trial(number), Split::new(shards, workers))),
            Err(WordsStop::BadWords) => Err(WordsStop::BadWords),
            Err(WordsStop::NoMemory) => Err(WordsStop::NoMemory),
        }
    }

    /// Reads the input to its end, which is the empty one where none is asked for.
    pub(crate) fn read<S: Source, K: Sink>(
        &self,
        alloc: Global,
        source: &mut S,
        sink: &mut K,
    ) -> Result<Vec<u8>, Status>
        ensures input { IfOk result (λ input. ReadsAll (limit_of self.now) input.items
            (reading S.left S.faults source.old source.new)) }
        ensures untouched { OnOk result (sink.new ≡ sink.old) }
        ensures stopped { IfErr result (λ status.
            StopsReading file_refusals (limit_of self.now) status
            (reading S.left S.faults source.old source.new)
            (writing K.written K.faults sink.old sink.new)) }
    {
        match self {
            Work::Count(_) => read_input(alloc, FILE_LIMIT, source, sink),
            Work::Day => read_input(alloc, DAY_LIMIT, source, sink),
            Work::Trial(_) => Ok(Vec::new(alloc)),
        }
    }

    /// Does it with the whole input, which is let go once it was read, and writes what is owed.
    pub(crate) fn finish<R: Threads + Wait + Sync, G: Gate + Sync, K: Sink>(
        &self,
        hands: &Hands<'_, R, G>,
        input: Vec<u8>,
        sink: &mut K,
    ) -> Outcome
        requires numbered { IsNumbered self.now }
        requires short { IsWithin (limit_of self.now) input.items }
        ensures { Works meek self.now input.items result.status result.history
            (writing K.written K.faults sink.old sink.new) }
    {
        match self {
            Work::Count(lots) => {
                let status = count(hands, input, lots.items(), sink);
                Outcome::without_calls(hands.alloc, status)
            }
            Work::Day => play_day(hands, input, sink),
            Work::Trial(number) => play_trial(hands, *number, sink),
        }
    }
}
