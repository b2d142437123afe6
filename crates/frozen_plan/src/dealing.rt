// Ballots dealt out among shards, and a plan of what each gets.
ghost use Rattle.std.specs.Prelude.{◌≡◌, ℕ, ◌+◌, ◌%◌, ◌≤◌, ◌++◌, All, IfOk, OnOk, length, replicate, IsPermutation};
ghost use Rattle.plain_ballots.specs.declared.limits.TheConstants.{MOST_BALLOTS, MOST_CANDIDATES};
ghost use Rattle.plain_ballots.specs.Ballots.{ballot_count, plain, IsSound};
ghost use Rattle.plain_ballots.specs.Ranking.{IsRanking};
ghost use Rattle.frozen_plan.specs.Dealing.{AreOfShares};
ghost use Rattle.frozen_plan.specs.Dealt.{AreDealt, AreEmpty};
ghost use Rattle.frozen_plan.specs.Plan.{all_ballots};

use crate::{NoMemory, Plan, Plans};
use packed_ballots::PackedBallots;
use plain_ballots::{BallotLine, Ballots, lines_stand_for_ballots};
use std::alloc::Global;

impl Plans {
    /// Deals the lines of ballots out among so many shards, the first line to the first shard, and
    /// makes a plan of what each gets. The ballots are let go before the first plan is made.
    pub fn dealt(alloc: Global, ballots: Ballots, shards: u32) -> Result<Plans, NoMemory>
        requires shards { 1 ≤ shards }
        requires candidates { (1 ≤ ballots.candidates) × (ballots.candidates ≤ MOST_CANDIDATES) }
        ensures as_many { IfOk result (λ plans. length plans ≡ shards) }
        ensures candidates { IfOk result (All (λ plan. plan.candidates ≡ ballots.candidates)) }
        ensures shares { IfOk result (AreOfShares shards 1 ballots.lines) }
        ensures ballots { IfOk result (λ plans. IsPermutation (all_ballots plans) (plain ballots.lines)) }
        ensures few { IfOk result (λ plans. length (all_ballots plans) ≤ MOST_BALLOTS) }
    {
        lines_stand_for_ballots();
        let shares = shares_of(alloc, ballots, shards)?;
        let mut plans = Plans::new(alloc);
        for share in shares {
            let plan = Plan::of_packed(alloc, share)?;
            plans.push(plan)?;
        }
        Ok(plans)
    }
}

/// The lines of ballots, which are let go, dealt out to so many shares.
fn shares_of(alloc: Global, ballots: Ballots, shards: u32) -> Result<Vec<PackedBallots>, NoMemory>
    requires shards { 1 ≤ shards }
    requires candidates { ballots.candidates ≤ MOST_CANDIDATES }
    ensures as_many { IfOk result (λ shares. length shares.items ≡ shards) }
    ensures dealt { IfOk result (λ shares. AreDealt ballots.candidates 0 ballots.lines shares.items) }
    ensures sound { IfOk result (λ _. IsSound ballots.candidates ballots.lines) }
{
    let mut shares = empty_shares(alloc, ballots.candidates(), shards)?;
    deal(ballots, shares.as_mut_slice())?;
    Ok(shares)
}

/// So many shares without lines.
fn empty_shares(alloc: Global, candidates: u32, shards: u32) -> Result<Vec<PackedBallots>, NoMemory>
    requires { candidates ≤ MOST_CANDIDATES }
    ensures as_many { IfOk result (λ shares. length shares.items ≡ shards) }
    ensures empty { IfOk result (λ shares. AreEmpty candidates shares.items) }
{
    let mut shares = Vec::with_capacity(alloc, shards as usize)?;
    for i in 0..shards {
        shares.push_reserved(PackedBallots::new(alloc, candidates)?);
    }
    Ok(shares)
}

/// Deals the lines of ballots out, one to each share in turn. They are taken from the last to the first, and
/// each is let go when its share has it, so that few ballots stand beside many shares.
fn deal(mut ballots: Ballots, shares: &mut [PackedBallots]) -> Result<(), NoMemory>
    requires some { 1 ≤ length shares.old }
    requires empty { AreEmpty ballots.candidates shares.old }
    ensures dealt { OnOk result (AreDealt ballots.candidates 0 ballots.lines shares.new) }
{
    lines_stand_for_ballots();
    let shards = shares.len();
    let mut turn = ballots.lines().len() % shards;
    while let Some(line) = ballots.pop_line() {
        turn = before(turn, shards);
        put(&mut shares[turn], &line)?;
    }
    Ok(())
}

/// Puts the ballots of a line to those of a share.
fn put(share: &mut PackedBallots, line: &BallotLine) -> Result<(), NoMemory>
    requires ranking { IsRanking share.old.candidates line.now.ranking }
    requires counted { 1 ≤ line.now.count }
    requires room { ballot_count share.old.lines + line.now.count ≤ MOST_BALLOTS }
    ensures candidates { share.new.candidates ≡ share.old.candidates }
    ensures ballots { OnOk result (IsPermutation (plain share.new.lines) (plain share.old.lines ++ replicate line.now.count line.now.ranking)) }
{
    let ranks = line.ranking.ranks();
    share.take(line.count, ranks, ranks.len())?;
    Ok(())
}

/// Whose turn it was before another's, of so many in a circle.
fn before(turn: usize, shards: usize) -> usize
    requires { 1 ≤ shards }
    ensures { (place : ℕ) → (place + 1) % shards ≡ turn → result ≡ place % shards }
{
    if turn > 0 { turn - 1 } else { shards - 1 }
}
