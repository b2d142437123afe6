// From ballots to their text.
ghost use Rattle.std.specs.Prelude.{◌≡◌, ◌≤◌, length, All};
ghost use Rattle.tool_edge.specs.Finishing.{FinishesOwed};
ghost use Rattle.tool_edge.specs.Streams.{writing};
ghost use Rattle.plain_ballots.specs.declared.limits.TheConstants.{MOST_CANDIDATES};
ghost use Rattle.plain_ballots.specs.Ballots.{IsSound};
ghost use Rattle.candidate_roll.specs.declared.limits.TheConstants.{MOST_NAME_BYTES, MOST_TITLE_BYTES};
ghost use Rattle.candidate_roll.specs.Name.{IsName};
ghost use Rattle.blt_writer.specs.Laws.{IsNamedRoll};
ghost use Rattle.blt_import.specs.Owed.{IsDoneUnder, IsDoneWith};

use crate::ImportFault;
use crate::read::Read;
use blt_writer::{
    Listing, every_bag_has_a_text, one_bag_has_one_text, texts_are_read, write_listing,
};
use byte_edge::Sink;
use candidate_roll::{MOST_NAME_BYTES, MOST_TITLE_BYTES, Name, Roll};
use import_words::{Output, RollWords};
use plain_ballots::Ballots;
use std::alloc::Global;
use std::thread::Threads;
use tool_edge::{End, close};

// Lines are put in order by at most as many workers: more than a machine has processors, as some have more lines.
const WORKERS: u32 = 16;

/// Writes the canonical text of the ballots that were read.
pub(crate) fn write_ballots<R: Threads + Sync, K: Sink>(
    rt: &R,
    alloc: Global,
    words: &RollWords,
    read: Read,
    sink: &mut K,
) -> End<ImportFault>
    requires withdrawn { All (λ c. (1 ≤ c) × (c ≤ length read.names)) words.now.withdrawn }
    requires candidates { read.ballots.candidates ≡ length read.names }
    ensures { FinishesOwed (IsDoneWith Output.Blt words.now read) result
        (writing K.written K.faults sink.old sink.new) }
{
    let withdrawn = words.withdrawn.items();
    are_named(read.names.items());
    is_title(&read.title);
    match Roll::try_new(alloc, words.seats, read.names, read.title, withdrawn) {
        Ok(roll) => write_under(rt, alloc, &roll, read.ballots, sink),
        Err(_) => End::NoMemory,
    }
}

/// Writes the canonical text of ballots under a roll.
fn write_under<R: Threads + Sync, K: Sink>(
    rt: &R,
    alloc: Global,
    roll: &Roll,
    ballots: Ballots,
    sink: &mut K,
) -> End<ImportFault>
    requires few { ballots.candidates ≤ MOST_CANDIDATES }
    requires candidates { ballots.candidates ≡ length roll.now.names }
    requires named { IsNamedRoll roll.now }
    ensures { FinishesOwed (IsDoneUnder roll.now ballots.lines) result
        (writing K.written K.faults sink.old sink.new) }
{
    every_bag_has_a_text();
    one_bag_has_one_text();
    texts_are_read();
    are_sound(&ballots);
    match Listing::begin(rt, alloc, roll, ballots, WORKERS) {
        Ok(listing) => {
            let wrote = write_listing(&listing, sink);
            close(sink, wrote)
        }
        Err(_) => End::NoMemory,
    }
}

/// Each name can be printed. There is nothing to do.
fn are_named(names: &[Name<MOST_NAME_BYTES>])
    ensures { All (IsName MOST_NAME_BYTES) names.now }
{
    for name in names {
        let _bytes = name.bytes();
    }
}

/// A title can be printed. There is nothing to do.
fn is_title(title: &Name<MOST_TITLE_BYTES>)
    ensures { IsName MOST_TITLE_BYTES title.now }
{
    let _bytes = title.bytes();
}

/// Ballots are rankings of their candidates, and not too many. There is nothing to do.
fn are_sound(ballots: &Ballots)
    ensures { IsSound ballots.now.candidates ballots.now.lines }
{
    let _lines = ballots.lines();
}
