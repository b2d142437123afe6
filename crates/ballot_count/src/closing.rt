// The end of a run after its text.
ghost use Rattle.tool_edge.specs.Streams.{writing};
ghost use Rattle.ballot_count.specs.Ending.{EndsAfter};

use byte_edge::{Failed, Sink};
use tool_edge::{End, close};

/// Ends a run whose text was written, or for which memory was wanted: flushes, unless writing failed.
pub fn end_after<K: Sink, E: Drop>(sink: &mut K, wrote: Result<Result<(), Failed>, E>) -> End
    ensures { EndsAfter wrote result (writing K.written K.faults sink.old sink.new) }
{
    match wrote {
        Ok(wrote) => close(sink, wrote),
        Err(_) => End::NoMemory,
    }
}
