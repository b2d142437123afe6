// Packed ballots.
ghost use Rattle.std.specs.Prelude.{◌≡◌, ◌+◌, ◌≤◌, [], ◌∷◌, ◌++◌, IfOk, OnOk, length, replicate, take, IsPermutation};
ghost use Rattle.plain_ballots.specs.declared.limits.TheConstants.{MOST_BALLOTS, MOST_CANDIDATES};
ghost use Rattle.plain_ballots.specs.Ballots.{ballot_count, plain};
ghost use Rattle.plain_ballots.specs.Ranking.{IsRanking};
ghost use Rattle.packed_ballots.specs.Packed.{IsPacked, front_of, lines_of};
ghost use Rattle.packed_ballots.specs.Taking.{TakesIn};

use crate::append::append_lines;
use crate::find::place_of;
use crate::front::front_digits;
use crate::put::put_line;
use crate::seats::Seats;
use crate::{NoMemory, PackedLine};
use plain_ballots::{BallotLine, Ballots};
use std::alloc::Global;
use std::marker::Model;

/// Ballots among so many candidates, packed: lines of different rankings, for the most part, in the order in
/// which each ranking came first. Their ranks are at most 4 GiB of bytes.
#[derive(Drop)]
pub struct PackedBallots {
    candidates: u32,
    total: u64,
    ranks: Vec<u8>,
    lines: Vec<PackedLine>,
    seats: Seats,
}

impl Model for PackedBallots {
    ghost use Rattle.std.specs.Prelude.{◌≡◌, ◌≤◌};
    ghost use Rattle.plain_ballots.specs.declared.limits.TheConstants.{MOST_CANDIDATES};
    ghost use Rattle.plain_ballots.specs.Ballots.{BallotList, ballot_count, IsSound};
    ghost use Rattle.packed_ballots.specs.Packed.{IsPacked, lines_of};

    ghost Value = { BallotList };

    ghost view = { λ p. record { candidates = p.candidates; lines = lines_of p.ranks.items p.lines.items } };

    ghost invariant = { λ p. IsPacked p.candidates p.ranks.items p.lines.items
        × IsSound p.candidates (lines_of p.ranks.items p.lines.items)
        × (p.total ≡ ballot_count (lines_of p.ranks.items p.lines.items))
        × (p.candidates ≤ MOST_CANDIDATES) };
}

impl PackedBallots {
    /// No ballots yet.
    pub fn new(alloc: Global, candidates: u32) -> Result<PackedBallots, NoMemory>
        requires { candidates ≤ MOST_CANDIDATES }
        ensures { IfOk result (λ packed. packed ≡ record { candidates = candidates; lines = [] }) }
    {
        Ok(PackedBallots {
            candidates,
            total: 0,
            ranks: Vec::new(alloc),
            lines: Vec::new(alloc),
            seats: Seats::new(alloc),
        })
    }

    /// The number of candidates.
    pub fn candidates(&self) -> u32
        ensures value { result ≡ self.now.candidates }
        ensures few { result ≤ MOST_CANDIDATES }
    {
        self.candidates
    }

    /// The number of all ballots, empty ones included.
    pub fn total(&self) -> u64
        ensures { result ≡ ballot_count self.now.lines }
    {
        self.total
    }

    /// How many lines stand there.
    pub fn len(&self) -> usize
        ensures { result ≡ length self.now.lines }
    {
        self.lines.len()
    }

    /// Takes in so many ballots with a ranking: the first `len` of these numbers. They go to a line of this
    /// ranking where one is found in a few looks, and else they are a line of their own after the others.
    #[inline]
    pub fn take(&mut self, count: u32, ranks: &[u32], len: usize) -> Result<(), NoMemory>
        requires inside { len ≤ length ranks.now }
        requires ranking { IsRanking self.old.candidates (take len ranks.now) }
        requires counted { 1 ≤ count }
        requires room { ballot_count self.old.lines + count ≤ MOST_BALLOTS }
        ensures candidates { self.new.candidates ≡ self.old.candidates }
        ensures lines { OnOk result (TakesIn count (take len ranks.now) self.old.lines self.new.lines) }
        ensures ballots { OnOk result (IsPermutation (plain self.new.lines) (plain self.old.lines ++ replicate count (take len ranks.now))) }
    {
        let ranks = &ranks[..len];
        let (bytes, lines) = (self.ranks.as_slice(), self.lines.as_slice());
        let front = front_digits(ranks);
        let seats = self.seats.near(front);
        let Some(place) = place_of(bytes, lines, seats, front, ranks) else {
            return self.put(count, front, ranks);
        };
        self.lines[place].count += count;
        self.total += count as u64;
        Ok(())
    }

    /// Packs the lines of ballots, which are let go one by one.
    pub fn pack(alloc: Global, ballots: Ballots) -> Result<PackedBallots, NoMemory>
        requires { ballots.candidates ≤ MOST_CANDIDATES }
        ensures candidates { IfOk result (λ packed. packed.candidates ≡ ballots.candidates) }
        ensures ballots { IfOk result (λ packed. IsPermutation (plain packed.lines) (plain ballots.lines)) }
    {
        let mut ballots = ballots;
        let mut packed = PackedBallots::new(alloc, ballots.candidates())?;
        while let Some(line) = ballots.pop_line() {
            packed.take_whole(line)?;
        }
        Ok(packed)
    }

    /// Puts the lines of other ballots after these, with their ranks. Equal lines of both stay two.
    pub fn append(&mut self, other: PackedBallots) -> Result<(), NoMemory>
        requires candidates { other.candidates ≡ self.old.candidates }
        requires few { ballot_count self.old.lines + ballot_count other.lines ≤ MOST_BALLOTS }
        ensures candidates { self.new.candidates ≡ self.old.candidates }
        ensures lines { OnOk result (self.new.lines ≡ self.old.lines ++ other.lines) }
    {
        let more = other.total;
        let (ranks, lines) = (other.ranks, other.lines);
        if lines.is_empty() {
            return Ok(());
        }
        append_lines(&mut self.ranks, &mut self.lines, ranks, &lines)?;
        self.total += more;
        Ok(())
    }

    /// The ranks of all lines, and the lines.
    pub fn into_parts(self) -> (Vec<u8>, Vec<PackedLine>)
        ensures packed { IsPacked self.candidates result.0.items result.1.items }
        ensures lines { lines_of result.0.items result.1.items ≡ self.lines }
        ensures few { ballot_count self.lines ≤ MOST_BALLOTS }
    {
        (self.ranks, self.lines)
    }

    /// Takes in the ballots of a line, which is let go.
    fn take_whole(&mut self, line: BallotLine) -> Result<(), NoMemory>
        requires ranking { IsRanking self.old.candidates line.ranking }
        requires counted { 1 ≤ line.count }
        requires room { ballot_count self.old.lines + line.count ≤ MOST_BALLOTS }
        ensures candidates { self.new.candidates ≡ self.old.candidates }
        ensures ballots { OnOk result (IsPermutation (plain self.new.lines) (plain self.old.lines ++ replicate line.count line.ranking)) }
    {
        let ranks = line.ranking.ranks();
        self.take(line.count, ranks, ranks.len())
    }

    /// Puts ballots of a ranking after the others, as a line of their own.
    fn put(&mut self, count: u32, front: u64, ranks: &[u32]) -> Result<(), NoMemory>
        requires front { front ≡ front_of ranks.now }
        requires ranking { IsRanking self.old.candidates ranks.now }
        requires counted { 1 ≤ count }
        requires room { ballot_count self.old.lines + count ≤ MOST_BALLOTS }
        ensures candidates { self.new.candidates ≡ self.old.candidates }
        ensures lines { OnOk result (self.new.lines ≡ self.old.lines ++ record { count = count; ranking = ranks.now } ∷ []) }
    {
        self.seats.make_room(&self.lines)?;
        put_line(&mut self.ranks, &mut self.lines, count, front, ranks)?;
        self.seats.note(front, self.lines.len());
        self.total += count as u64;
        Ok(())
    }
}
