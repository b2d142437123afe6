// The end of a run: its last bytes, and the flush after them.
ghost use Rattle.std.specs.Prelude.{◌≡◌};
ghost use Rattle.tool_edge.specs.Streams.{writing};
ghost use Rattle.tool_edge.specs.Finishing.{Finishes, Closes};

use crate::End;
use byte_edge::{Failed, Sink, write_all};

/// Writes the bytes and flushes. A failure takes the place of the end that was due.
pub fn finish<F: Copy, K: Sink>(sink: &mut K, due: End<F>, bytes: &[u8]) -> End<F>
    ensures { Finishes due bytes.now result (writing K.written K.faults sink.old sink.new) }
{
    if let Err(_) = write_all(sink, bytes) {
        return End::SinkFault;
    }
    if let Err(_) = sink.flush() {
        return End::SinkFault;
    }
    due
}

/// Ends a run whose bytes were written piece by piece: flushes, unless writing them failed.
pub fn close<F, K: Sink>(sink: &mut K, wrote: Result<(), Failed>) -> End<F>
    ensures { Closes wrote result (writing K.written K.faults sink.old sink.new) }
{
    if let Err(_) = wrote {
        return End::SinkFault;
    }
    match sink.flush() {
        Ok(()) => End::Done,
        Err(_) => End::SinkFault,
    }
}
