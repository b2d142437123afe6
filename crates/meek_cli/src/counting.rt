// A count: from the bytes of a ballot file to the sheet.
ghost use Rattle.std.specs.Prelude.{◌≤◌, length};
ghost use Rattle.tool_edge.specs.declared.opening.TheConstants.{FILE_LIMIT};
ghost use Rattle.tool_edge.specs.Streams.{writing};
ghost use Rattle.meek_cli.specs.Run.{FinishesCount};

use crate::Status;
use crate::hands::Hands;
use byte_edge::{Gate, Sink};
use std::thread::Threads;

/// Counts the ballots of a file by these lots, and writes the sheet or the refusal.
pub(crate) fn count<R: Threads + Sync, G: Gate + Sync, K: Sink>(
    hands: &Hands<'_, R, G>,
    input: Vec<u8>,
    lots: &[u32],
    sink: &mut K,
) -> Status
    requires { length input.items ≤ FILE_LIMIT }
    ensures { FinishesCount lots.now input.items result
        (writing K.written K.faults sink.old sink.new) }
{
    let crew = hands.crew();
    ballot_count::count(&crew, input, lots, sink)
}
