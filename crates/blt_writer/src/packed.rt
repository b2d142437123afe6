// Rankings packed into bytes, one after another.
ghost use Rattle.std.specs.Prelude.{◌≡◌, ℕ, ◌≤◌, ◌∷◌, ◌++◌, All, length, IfOk, OnErr, OnOk, slice_index};
ghost use Rattle.plain_ballots.specs.declared.limits.TheConstants.{MOST_CANDIDATES};
ghost use Rattle.blt_writer.specs.Packed.{front, ranking_at};

use crate::NoMemory;
use crate::entry::Entry;
use plain_ballots::BallotLine;
use std::mem;

/// Packs the ranking of a line after the others.
pub(crate) fn pack(line: &BallotLine, ranks: &mut Vec<u8>) -> Result<Entry, NoMemory>
    requires candidates { All (λ c. (1 ≤ c) × (c ≤ MOST_CANDIDATES)) line.now.ranking }
    requires short { length line.now.ranking ≤ MOST_CANDIDATES }
    ensures ranks { OnOk result (ranks.new.items ≡ ranks.old.items ++ (length line.now.ranking ∷ line.now.ranking)) }
    ensures refused { OnErr result (ranks.new.items ≡ ranks.old.items) }
    ensures entry { IfOk result (λ entry. entry ≡ record { front = front 8 line.now.ranking; start = length ranks.old.items; count = line.now.count }) }
{
    let Ok(start) = u32::try_from(ranks.len()) else {
        return Err(NoMemory);
    };
    let candidates = line.ranking.ranks();
    push_ranking(ranks, candidates)?;
    Ok(Entry {
        front: front_of(candidates),
        start,
        count: line.count,
    })
}

/// Puts the length of a ranking after the others, and then its candidates. The list is taken out meanwhile, so
/// that its length is not written to memory with each candidate.
fn push_ranking(ranks: &mut Vec<u8>, candidates: &[u32]) -> Result<(), NoMemory>
    requires candidates { All (λ c. (1 ≤ c) × (c ≤ MOST_CANDIDATES)) candidates.now }
    requires short { length candidates.now ≤ MOST_CANDIDATES }
    ensures ranks { OnOk result (ranks.new.items ≡ ranks.old.items ++ (length candidates.now ∷ candidates.now)) }
    ensures refused { OnErr result (ranks.new.items ≡ ranks.old.items) }
{
    ranks.reserve(candidates.len() + 1)?;
    let empty = Vec::new(*ranks.allocator());
    let mut longer = mem::replace(ranks, empty);
    longer.push_reserved(candidates.len() as u8);
    for candidate in candidates {
        longer.push_reserved(*candidate as u8);
    }
    *ranks = longer;
    Ok(())
}

/// The first eight candidates as the digits of a number, with zeros after a shorter ranking.
fn front_of(candidates: &[u32]) -> u64
    requires { All (λ c. (1 ≤ c) × (c ≤ MOST_CANDIDATES)) candidates.now }
    ensures { result ≡ front 8 candidates.now }
{
    let mut front = 0;
    for place in 0..8 {
        front = front * 256 + candidate_at(candidates, place);
    }
    front
}

/// The candidate at a place from 0, and 0 after the last.
fn candidate_at(candidates: &[u32], place: usize) -> u64
    requires { All (λ c. (1 ≤ c) × (c ≤ MOST_CANDIDATES)) candidates.now }
    ensures value { result ≡ slice_index candidates.now place }
    ensures small { result ≤ MOST_CANDIDATES }
{
    match candidates.get(place) {
        Some(candidate) => *candidate as u64,
        None => 0,
    }
}

/// The ranking that is at a place.
#[inline]
pub(crate) fn ranking_at(ranks: &[u8], start: u32) -> &[u8]
    ensures { result.now ≡ ranking_at ranks.now start }
{
    let Some(len) = ranks.get(start as usize) else {
        return &[];
    };
    let behind = &ranks[start as usize + 1..];
    &behind[..behind.len().min(*len as usize)]
}
