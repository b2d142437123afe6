// Ballots to which rows are added.
ghost use Rattle.std.specs.Prelude.{◌≡◌, ◌+◌, ◌≤◌, ◌^◌, ◌<◌, ◌++◌, ◌∷◌, [], IsTrue, replicate, OnOk, IfOk};
ghost use Rattle.plain_ballots.specs.Ballots.{plain};
ghost use Rattle.plain_ballots.specs.Ranking.{IsRanking};

use plain_ballots::{BallotLine, Ballots, NoMemory};
use std::alloc::Global;
use std::marker::Model;

/// Ballots to which lines are added. The last line is still open: ballots that say the same as it are counted there.
#[derive(Drop)]
pub(crate) struct GrowingBallots {
    done: Ballots,
    last: Option<BallotLine>,
}

impl Model for GrowingBallots {
    ghost use Rattle.std.specs.Prelude.{◌++◌};
    ghost use Rattle.std.specs.Option.{option_to_list};
    ghost use Rattle.plain_ballots.specs.Ballots.{BallotList};
    ghost use Rattle.ballot_table.specs.Growing.{IsLast};

    ghost Value = { BallotList };

    ghost view = { λ b. record { candidates = b.done.candidates; lines = b.done.lines ++ option_to_list b.last } };

    ghost invariant = { λ b. IsLast b.done.candidates b.last };
}

impl GrowingBallots {
    /// No ballots yet.
    pub fn new(alloc: Global, candidates: u32) -> GrowingBallots
        ensures { result ≡ record { candidates = candidates; lines = [] } }
    {
        GrowingBallots {
            done: Ballots::new(alloc, candidates),
            last: None,
        }
    }

    /// Adds the ballots of a line.
    #[inline(always)]
    pub fn push(&mut self, line: BallotLine) -> Result<(), NoMemory>
        requires ranking { IsRanking self.old.candidates line.ranking }
        requires counted { 1 ≤ line.count }
        ensures added { OnOk result (plain self.new.lines ≡ plain self.old.lines ++ replicate line.count line.ranking) }
        ensures candidates { self.new.candidates ≡ self.old.candidates }
    {
        match self.last.take() {
            Some(last) => {
                if is_same(&last, &line) {
                    self.last = Some(BallotLine {
                        count: last.count + line.count,
                        ranking: last.ranking,
                    });
                    Ok(())
                } else {
                    self.last = Some(line);
                    push_line(&mut self.done, last)
                }
            }
            None => {
                self.last = Some(line);
                Ok(())
            }
        }
    }

    /// All of them.
    pub fn finish(self) -> Result<Ballots, NoMemory>
        ensures { IfOk result (λ ballots. ballots ≡ self) }
    {
        let GrowingBallots { mut done, last } = self;
        match last {
            Some(line) => {
                push_line(&mut done, line)?;
                Ok(done)
            }
            None => Ok(done),
        }
    }
}

// Whether two lines are of equal ballots, which one line can count.
#[inline(always)]
fn is_same(one: &BallotLine, other: &BallotLine) -> bool
    ensures same { IsTrue result → one.now.ranking ≡ other.now.ranking }
    ensures room { IsTrue result → one.now.count + other.now.count < 2 ^ 32 }
{
    one.ranking.ranks() == other.ranking.ranks() && one.count <= u32::MAX - other.count
}

#[inline]
fn push_line(ballots: &mut Ballots, line: BallotLine) -> Result<(), NoMemory>
    requires ranking { IsRanking ballots.old.candidates line.ranking }
    requires counted { 1 ≤ line.count }
    ensures ok { OnOk result (ballots.new ≡ record ballots.old { lines = ballots.old.lines ++ line ∷ [] }) }
    ensures candidates { ballots.new.candidates ≡ ballots.old.candidates }
{
    match ballots.push_line(line) {
        Ok(()) => Ok(()),
        Err(_) => Err(NoMemory),
    }
}
