// From the bytes of a ballot file to its canonical text.
ghost use Rattle.std.specs.Prelude.{◌≤◌, length};
ghost use Rattle.tool_edge.specs.declared.opening.TheConstants.{FILE_LIMIT};
ghost use Rattle.tool_edge.specs.Finishing.{FinishesOwed};
ghost use Rattle.tool_edge.specs.Streams.{writing};
ghost use Rattle.tool_edge.specs.Tool.{IsOwedFor, no_history};
ghost use Rattle.blt_normal.specs.Owed.{normal_tool};

use blt_reader::{Election, read_blt};
use blt_writer::{Listing, write_listing};
use byte_edge::Sink;
use std::alloc::Global;
use std::thread::Threads;
use tool_edge::{End, close, refuse_input};

// Lines are put in order by at most as many workers: more than a machine has processors, as some have more lines.
const WORKERS: u32 = 16;

/// Writes the canonical text of a file, or its refusal.
pub(crate) fn rewrite<R: Threads + Sync, K: Sink>(
    rt: &R,
    alloc: Global,
    input: &[u8],
    sink: &mut K,
) -> End
    requires { length input.now ≤ FILE_LIMIT }
    ensures { FinishesOwed (IsOwedFor normal_tool (tt {0}) input.now no_history) result
        (writing K.written K.faults sink.old sink.new) }
{
    let Election { ballots, roll } = match read_blt(alloc, input) {
        Ok(election) => election,
        Err(stop) => return refuse_input(sink, stop),
    };
    let _candidates = roll.candidates();
    let Ok(listing) = Listing::begin(rt, alloc, &roll, ballots, WORKERS) else {
        return End::NoMemory;
    };
    let wrote = write_listing(&listing, sink);
    close(sink, wrote)
}
