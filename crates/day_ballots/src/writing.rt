// The ballot file of what stood at a freeze.
ghost use Rattle.std.specs.Prelude.{◌≡◌, length};
ghost use Rattle.day_reader.specs.Said.{AreScripts};
ghost use Rattle.tool_edge.specs.Finishing.{FinishesOwed};
ghost use Rattle.tool_edge.specs.Streams.{writing};
ghost use Rattle.day_ballots.specs.Ballots.{IsOwedAtLine, IsOwedFile};

use crate::BallotsFault;
use crate::finding::find;
use blt_writer::{Export, write_blt};
use byte_edge::Sink;
use candidate_roll::Roll;
use day_reader::Day;
use day_replay::{Frozen, follow, frozen_at};
use std::alloc::Global;
use std::thread::Threads;
use tool_edge::{End, close, refuse};

/// Writes the file of what is at the freeze of a line of a text, or why there is none. The day's calls are
/// made again in the order that the text's lines say.
pub(crate) fn write_at<R: Threads + Sync, K: Sink>(
    rt: &R,
    alloc: Global,
    at: u32,
    text: &[u8],
    day: Day,
    sink: &mut K,
) -> End<BallotsFault>
    requires scripts { AreScripts (length day.roll.names) day.scripts }
    ensures { FinishesOwed (IsOwedAtLine day text.now at) result (writing K.written K.faults sink.old sink.new) }
{
    let Day { roll, scripts, .. } = day;
    let candidates = roll.candidates();
    let Ok(history) = follow(alloc, candidates, scripts, text) else {
        return End::NoMemory;
    };
    if let Err(fault) = find(text, &history, at as u64) {
        return refuse(sink, fault);
    }
    let Ok(frozen) = frozen_at(rt, alloc, candidates, &history, at as usize) else {
        return End::NoMemory;
    };
    write_frozen(alloc, &roll, frozen, sink)
}

/// Writes the file of what stood. All memory is taken before the first byte.
fn write_frozen<K: Sink>(
    alloc: Global,
    roll: &Roll,
    frozen: Frozen,
    sink: &mut K,
) -> End<BallotsFault>
    requires { frozen.candidates ≡ length roll.now.names }
    ensures { FinishesOwed (IsOwedFile roll.now frozen) result (writing K.written K.faults sink.old sink.new) }
{
    let Ok(roll) = roll.with_struck(alloc, frozen.struck()) else {
        return End::NoMemory;
    };
    let Ok(mut export) = Export::begin(alloc, &roll, frozen.into_plans()) else {
        return End::NoMemory;
    };
    let wrote = write_blt(&mut export, sink);
    close(sink, wrote)
}
