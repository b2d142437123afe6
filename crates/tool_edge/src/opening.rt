// From the words and the source to the whole input.
ghost use Rattle.std.specs.Prelude.{◌≡◌, Some, IfOk, IfErr, OnOk};
ghost use Rattle.tool_edge.specs.Streams.{reading, writing};
ghost use Rattle.tool_edge.specs.Opening.{ReadsAll, StopsOpening, StopsReading};

use crate::refusal::{refuse, refuse_words};
use crate::{End, Fault};
use byte_edge::{ReadStop, Sink, Source, read_all};
use meek_words::WordsStop;
use std::alloc::Global;

/// The greatest length of a tool's input, in bytes.
pub const FILE_LIMIT: usize = 67_108_864;

/// The greatest length of a day file, in bytes.
pub const DAY_LIMIT: usize = 16_777_216;

/// What the words ask for, and the whole input.
#[derive(Drop)]
pub struct Opened<A> {
    pub asked: A,
    pub input: Vec<u8>,
}

/// Reads the source to its end, if the words ask for something. Otherwise, or where it can't be read
/// to its end, the run is over: what the sink is owed was written.
pub fn open<A: Drop, F: Fault, S: Source, K: Sink>(
    alloc: Global,
    asked: Result<A, WordsStop>,
    limit: usize,
    source: &mut S,
    sink: &mut K,
) -> Result<Opened<A>, End<F>>
    ensures asked { IfOk result (λ opened. asked ≡ Ok opened.asked) }
    ensures input { IfOk result (λ opened.
        ReadsAll (Some limit) opened.input.items (reading S.left S.faults source.old source.new)) }
    ensures untouched { OnOk result (sink.new ≡ sink.old) }
    ensures stopped { IfErr result (λ end.
        StopsOpening F.refusals (Some limit) asked end (reading S.left S.faults source.old source.new)
        (writing K.written K.faults sink.old sink.new)) }
{
    match asked {
        Ok(asked) => {
            let input = read_input(alloc, limit, source, sink)?;
            Ok(Opened { asked, input })
        }
        Err(stop) => Err(refuse_words(sink, stop)),
    }
}

/// Reads the source to its end. Where that can't be done, what the sink is owed was written.
pub fn read_input<F: Fault, S: Source, K: Sink>(
    alloc: Global,
    limit: usize,
    source: &mut S,
    sink: &mut K,
) -> Result<Vec<u8>, End<F>>
    ensures input { IfOk result (λ input.
        ReadsAll (Some limit) input.items (reading S.left S.faults source.old source.new)) }
    ensures untouched { OnOk result (sink.new ≡ sink.old) }
    ensures stopped { IfErr result (λ end.
        StopsReading F.refusals (Some limit) end (reading S.left S.faults source.old source.new)
        (writing K.written K.faults sink.old sink.new)) }
{
    match read_all(alloc, source, limit) {
        Ok(input) => Ok(input),
        Err(ReadStop::TooLong) => Err(refuse(sink, F::too_long(limit))),
        Err(ReadStop::Failed) => Err(End::SourceFault),
        Err(ReadStop::NoMemory) => Err(End::NoMemory),
    }
}
