// Ballots in the order in which their file lists them.
ghost use Rattle.std.specs.Prelude.{◌≡◌, ◌≤◌, IfOk, IsPermutation};
ghost use Rattle.plain_ballots.specs.declared.limits.TheConstants.{MOST_BALLOTS, MOST_CANDIDATES};
ghost use Rattle.plain_ballots.specs.Ballots.{plain};
ghost use Rattle.blt_writer.specs.Written.{WritesText};

use crate::NoMemory;
use crate::file::{write_closing, write_opening};
use crate::shelf::Shelf;
use crate::shelves::{shelved, sort_each, write_shelves};
use byte_edge::{Failed, Sink};
use candidate_roll::Roll;
use plain_ballots::{Ballots, lines_stand_for_ballots};
use std::alloc::Global;
use std::marker::Model;
use std::thread::Threads;

/// The ballots of an election under a roll, in the order in which their file lists them.
#[derive(Drop)]
pub struct Listing<'e> {
    roll: &'e Roll,
    shelves: Vec<Shelf>,
}

impl<'e> Model for Listing<'e> {
    ghost use Rattle.std.specs.Prelude.{◌≤◌, All, length};
    ghost use Rattle.plain_ballots.specs.declared.limits.TheConstants.{MOST_BALLOTS};
    ghost use Rattle.blt_writer.specs.Exported.{Exported};
    ghost use Rattle.blt_writer.specs.Merge.{all_plain};
    ghost use Rattle.blt_writer.specs.Packed.{AreListed};
    ghost use Rattle.blt_writer.specs.Shelves.{AreShelved};

    ghost Value = { Exported };

    ghost view = { λ l. record { roll = l.roll.now; ballots = all_plain l.shelves.items } };

    ghost invariant = { λ l.
        AreShelved l.shelves.items × All AreListed l.shelves.items
        × (length (all_plain l.shelves.items) ≤ MOST_BALLOTS) };
}

impl<'e> Listing<'e> {
    /// Puts the lines of ballots in order, by at most so many workers, each in a thread of its own, and lets
    /// go of each line as it comes to its place. All memory is taken here.
    pub fn begin<R: Threads + Sync>(
        rt: &R,
        alloc: Global,
        roll: &'e Roll,
        ballots: Ballots,
        workers: u32,
    ) -> Result<Listing<'e>, NoMemory>
        requires candidates { ballots.candidates ≤ MOST_CANDIDATES }
        requires workers { 1 ≤ workers }
        ensures roll { IfOk result (λ listing. listing.roll ≡ roll.entry.now) }
        ensures ballots { IfOk result (λ listing. IsPermutation listing.ballots (plain ballots.lines)) }
    {
        lines_stand_for_ballots();
        let _sound = ballots.lines();
        let mut shelves = shelved(alloc, ballots)?;
        sort_each(rt, shelves.as_mut_slice(), workers);
        Ok(Listing { roll, shelves })
    }
}

/// Writes the file of a listing's ballots under its roll, and takes no memory.
pub fn write_listing<K: Sink>(listing: &Listing<'_>, sink: &mut K) -> Result<(), Failed>
    ensures { WritesText K.written K.faults sink.old sink.new listing.now result }
{
    write_opening(listing.roll, sink)?;
    write_shelves(listing.shelves.as_slice(), sink)?;
    write_closing(listing.roll, sink)
}
