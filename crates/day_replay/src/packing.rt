// The ballots of all batches, packed where they lie.
ghost use Rattle.std.specs.Prelude.{◌≡◌, ◌+◌, ◌≤◌, ◌++◌, All, IfOk, OnOk, IsPermutation, length};
ghost use Rattle.plain_ballots.specs.declared.limits.TheConstants.{MOST_BALLOTS, MOST_CANDIDATES};
ghost use Rattle.plain_ballots.specs.Ballots.{ballot_count, plain};
ghost use Rattle.batch_core.specs.declared.limits.TheConstants.{LAST_NUMBER, MOST_OF_BATCH};
ghost use Rattle.day_reader.specs.Said.{IsAnswerable};
ghost use Rattle.day_replay.specs.Places.{lines_at, placed_lines};

use crate::NoMemory;
use crate::places::ballots_at;
use batch_core::Entry;
use packed_ballots::PackedBallots;
use plain_ballots::Ballots;
use std::alloc::Global;

/// The ballots that have a place among the calls, packed. None is copied on the way.
pub(crate) fn pack_placed(
    alloc: Global,
    candidates: u32,
    entries: &[Entry],
    places: &[Option<usize>],
) -> Result<PackedBallots, NoMemory>
    requires candidates { candidates ≤ MOST_CANDIDATES }
    requires answerable { All (λ e. IsAnswerable candidates e.call) entries.now }
    requires numbered { length places.now ≡ LAST_NUMBER }
    ensures candidates { IfOk result (λ packed. packed.candidates ≡ candidates) }
    ensures ballots { IfOk result (λ packed.
        IsPermutation (plain packed.lines) (plain (placed_lines entries.now places.now))) }
{
    let mut packed = PackedBallots::new(alloc, candidates)?;
    for place in places {
        put_at(&mut packed, entries, *place)?;
    }
    Ok(packed)
}

/// Puts the ballots of a call to others.
fn put_at(
    packed: &mut PackedBallots,
    entries: &[Entry],
    place: Option<usize>,
) -> Result<(), NoMemory>
    requires answerable { All (λ e. IsAnswerable packed.old.candidates e.call) entries.now }
    requires room { ballot_count packed.old.lines + MOST_OF_BATCH ≤ MOST_BALLOTS }
    ensures candidates { packed.new.candidates ≡ packed.old.candidates }
    ensures ballots { OnOk result
        (IsPermutation (plain packed.new.lines) (plain packed.old.lines ++ plain (lines_at entries.now place))) }
    ensures few { OnOk result (ballot_count packed.new.lines ≤ ballot_count packed.old.lines + MOST_OF_BATCH) }
{
    match ballots_at(entries, place) {
        Some(ballots) => put(packed, ballots),
        None => Ok(()),
    }
}

/// Puts ballots to others.
fn put(packed: &mut PackedBallots, ballots: &Ballots) -> Result<(), NoMemory>
    requires candidates { ballots.now.candidates ≡ packed.old.candidates }
    requires room { ballot_count packed.old.lines + ballot_count ballots.now.lines ≤ MOST_BALLOTS }
    ensures candidates { packed.new.candidates ≡ packed.old.candidates }
    ensures ballots { OnOk result
        (IsPermutation (plain packed.new.lines) (plain packed.old.lines ++ plain ballots.now.lines)) }
{
    for line in ballots.lines() {
        let ranks = line.ranking.ranks();
        packed.take(line.count, ranks, ranks.len())?;
    }
    Ok(())
}
