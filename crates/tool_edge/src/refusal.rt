// The lines of refusals.
ghost use Rattle.std.specs.Prelude.{◌≡◌};
ghost use Rattle.tool_edge.specs.Refusals.{fault_line, words_line};
ghost use Rattle.tool_edge.specs.Streams.{writing};
ghost use Rattle.tool_edge.specs.Finishing.{Finishes, RefusesInput, RefusesWords};

use crate::{End, Fault, finish};
use blt_reader::{BltStop, InputFault};
use byte_edge::Sink;
use line_text::Line;
use meek_words::WordsStop;

/// Puts the line of a refused file together.
pub(crate) fn fault_line(fault: InputFault) -> Line
    ensures { result ≡ fault_line fault }
{
    let mut line = Line::new();
    line.push_bytes(b"refused ");
    line.push_bytes(fault.kind.word());
    line.push_bytes(b" at ");
    line.push_count(fault.at as u64);
    line.push_bytes(b"\n");
    line
}

/// Writes the line of a refused input, and flushes.
pub fn refuse<F: Fault, K: Sink>(sink: &mut K, fault: F) -> End<F>
    ensures { Finishes (End.BadInput fault) (F.refusals.line fault) result
        (writing K.written K.faults sink.old sink.new) }
{
    let line = fault.line();
    finish(sink, End::BadInput(fault), line.bytes())
}

/// Answers what stopped the reading of a file: a fault by its line.
pub fn refuse_input<K: Sink>(sink: &mut K, stop: BltStop) -> End
    ensures { RefusesInput stop result (writing K.written K.faults sink.old sink.new) }
{
    match stop {
        BltStop::Fault(fault) => refuse(sink, fault),
        BltStop::NoMemory => End::NoMemory,
    }
}

/// Answers words that ask for nothing by their line.
pub fn refuse_words<F: Copy, K: Sink>(sink: &mut K, stop: WordsStop) -> End<F>
    ensures { RefusesWords stop result (writing K.written K.faults sink.old sink.new) }
{
    match stop {
        WordsStop::BadWords => finish(sink, End::BadWords, b"refused BadWords\n"),
        WordsStop::NoMemory => End::NoMemory,
    }
}
