// Packed lines that are dealt out among shards.
ghost use Rattle.std.specs.Prelude.{◌≡◌, ℕ, ◌+◌, ◌<◌, ◌≤◌, ◌^◌, List, IfOk};
ghost use Rattle.plain_ballots.specs.declared.limits.TheConstants.{MOST_BALLOTS};
ghost use Rattle.plain_ballots.specs.Ballots.{ballot_count};
ghost use Rattle.frozen_plan.specs.Dealt.{AreOfShard, IsOfShare};

use crate::{NoMemory, Plan};
use packed_ballots::{PackedBallots, PackedLine};
use std::alloc::Global;
use std::marker::Model;

/// Packed lines and among how many shards they are dealt, the first line to the first shard. All shards
/// share one list of ranks.
#[derive(Drop)]
pub(crate) struct Deal {
    candidates: u32,
    shards: u32,
    ranks: Vec<u8>,
    lines: Vec<PackedLine>,
}

impl Model for Deal {
    ghost use Rattle.std.specs.Prelude.{◌≤◌};
    ghost use Rattle.plain_ballots.specs.declared.limits.TheConstants.{MOST_BALLOTS, MOST_CANDIDATES};
    ghost use Rattle.plain_ballots.specs.Ballots.{ballot_count};
    ghost use Rattle.packed_ballots.specs.Packed.{IsPacked, lines_of};
    ghost use Rattle.frozen_plan.specs.Dealt.{LinesToDeal};

    ghost Value = { LinesToDeal };

    ghost view = { λ d. record { candidates = d.candidates; shards = d.shards; lines = lines_of d.ranks.items d.lines.items } };

    ghost invariant = { λ d. (d.candidates ≤ MOST_CANDIDATES)
        × IsPacked d.candidates d.ranks.items d.lines.items
        × (ballot_count (lines_of d.ranks.items d.lines.items) ≤ MOST_BALLOTS) };
}

impl Deal {
    /// The lines of packed ballots, to be dealt among so many shards.
    pub(crate) fn of(packed: PackedBallots, shards: u32) -> Deal
        ensures value { result ≡ record { candidates = packed.candidates; shards = shards; lines = packed.lines } }
        ensures few { ballot_count packed.lines ≤ MOST_BALLOTS }
    {
        let candidates = packed.candidates();
        let (ranks, lines) = packed.into_parts();
        Deal {
            candidates,
            shards,
            ranks,
            lines,
        }
    }

    pub(crate) fn shards(&self) -> u32
        ensures { result ≡ self.now.shards }
    {
        self.shards
    }

    /// The plan of the shard at a turn from 0.
    pub(crate) fn plan_of(&self, alloc: Global, turn: usize) -> Result<Plan, NoMemory>
        requires { turn < self.now.shards }
        ensures { IfOk result (IsOfShare self.now.candidates self.now.shards (turn + 1) self.now.lines) }
    {
        let lines = self.lines.as_slice();
        let mut own = share_of(alloc, lines, self.shards as usize, turn)?;
        Plan::of_lines(
            alloc,
            self.candidates,
            self.ranks.as_slice(),
            own.as_mut_slice(),
        )
    }
}

/// The lines that are dealt to the shard at a turn from 0 of so many.
fn share_of(
    alloc: Global,
    lines: &[PackedLine],
    shards: usize,
    turn: usize,
) -> Result<Vec<PackedLine>, NoMemory>
    requires turn { turn < shards }
    requires shards { shards < 2 ^ 32 }
    ensures { IfOk result (λ own. (bytes : List ℕ) → AreOfShard bytes shards (turn + 1) lines.now own.items) }
{
    let mut own = Vec::with_capacity(alloc, lines.len().div_ceil(shards))?;
    let mut i = turn;
    while i < lines.len() {
        own.push(lines[i])?;
        i += shards;
    }
    Ok(own)
}
