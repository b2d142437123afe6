// The ballots of an election.
ghost use Rattle.std.specs.Prelude.{◌≡◌, ◌+◌, ◌<◌, ◌≤◌, ◌↔◌, [], ◌∷◌, ◌++◌, IfNone, IfOk, IfErr, IfSome, IsNone, OnOk, OnErr};
ghost use Rattle.plain_ballots.specs.declared.limits.TheConstants.{MOST_BALLOTS};
ghost use Rattle.plain_ballots.specs.Ballots.{IsSound, ballot_count, HandsBack};
ghost use Rattle.plain_ballots.specs.Ranking.{IsRanking};

use crate::{AppendStop, BallotLine, LineStop, MOST_BALLOTS, NoMemory};
use std::alloc::Global;
use std::marker::Model;

/// [`MOST_BALLOTS`], as a total.
const MOST: u64 = MOST_BALLOTS as u64;

/// Lines of ballots among so many candidates, with their total of at most 999,999,999.
#[derive(Debug, Drop)]
pub struct Ballots {
    candidates: u32,
    total: u64,
    lines: Vec<BallotLine>,
}

impl Model for Ballots {
    ghost use Rattle.std.specs.Prelude.{◌≡◌};
    ghost use Rattle.plain_ballots.specs.Ballots.{BallotList, IsSound, ballot_count};

    ghost Value = { BallotList };

    ghost view = { λ b. record { candidates = b.candidates; lines = b.lines.items } };

    ghost invariant = { λ b. IsSound b.candidates b.lines.items × (b.total ≡ ballot_count b.lines.items) };
}

impl Ballots {
    /// No ballots yet.
    pub fn new(alloc: Global, candidates: u32) -> Ballots
        ensures { result ≡ record { candidates = candidates; lines = [] } }
    {
        Ballots {
            candidates,
            total: 0,
            lines: Vec::new(alloc),
        }
    }

    /// Adds a line at the end.
    pub fn push_line(&mut self, line: BallotLine) -> Result<(), LineStop>
        requires ranking { IsRanking self.old.candidates line.ranking }
        requires counted { 1 ≤ line.count }
        ensures ok { OnOk result (self.new ≡ record self.old { lines = self.old.lines ++ line ∷ [] }) }
        ensures too_many { (result ≡ Err (LineStop.TooMany line)) ↔ (MOST_BALLOTS < ballot_count self.old.lines + line.count) }
        ensures handed_back { IfErr result (HandsBack line) }
        ensures refused { OnErr result (self.new ≡ self.old) }
    {
        let total = self.total + line.count as u64;
        if total > MOST {
            return Err(LineStop::TooMany(line));
        }
        match self.lines.push(line) {
            Ok(()) => {
                self.total = total;
                Ok(())
            }
            Err(failed) => Err(LineStop::NoMemory(failed.value)),
        }
    }

    /// Takes the last line out, and gives memory back each time less than half of it is in use: whoever makes something
    /// else of many ballots can let go of each line as it goes.
    pub fn pop_line(&mut self) -> Option<BallotLine>
        ensures last { IfSome result (λ line. self.old ≡ record self.new { lines = self.new.lines ++ line ∷ [] }) }
        ensures ranking { IfSome result (λ line. IsRanking self.old.candidates line.ranking) }
        ensures counted { IfSome result (λ line. 1 ≤ line.count) }
        ensures empty { IsNone result ↔ (self.old.lines ≡ []) }
        ensures kept { IfNone result (self.new ≡ self.old) }
    {
        let line = self.lines.pop()?;
        self.total -= line.count as u64;
        give_back(&mut self.lines);
        Some(line)
    }

    /// Adds copies of the lines of another list at the end, in their order.
    pub fn append_copy(&mut self, other: &Ballots) -> Result<(), AppendStop>
        requires { other.now.candidates ≡ self.old.candidates }
        ensures ok { OnOk result (self.new ≡ record self.old { lines = self.old.lines ++ other.now.lines }) }
        ensures too_many { (result ≡ Err AppendStop.TooMany) ↔ (MOST_BALLOTS < ballot_count self.old.lines + ballot_count other.now.lines) }
        ensures refused { OnErr result (self.new ≡ self.old) }
    {
        let total = self.total + other.total;
        if total > MOST {
            return Err(AppendStop::TooMany);
        }
        let Ok(mut copied) = copy_lines(*self.lines.allocator(), other.lines()) else {
            return Err(AppendStop::NoMemory);
        };
        if self.lines.append(&mut copied).is_err() {
            return Err(AppendStop::NoMemory);
        }
        self.total = total;
        Ok(())
    }

    pub fn copy(&self, alloc: Global) -> Result<Ballots, NoMemory>
        ensures { IfOk result (λ ballots. ballots ≡ self.now) }
    {
        Ok(Ballots {
            candidates: self.candidates,
            total: self.total,
            lines: copy_lines(alloc, self.lines())?,
        })
    }

    pub fn candidates(&self) -> u32
        ensures { result ≡ self.now.candidates }
    {
        self.candidates
    }

    /// The number of all ballots, empty ones included.
    pub fn total(&self) -> u64
        ensures { result ≡ ballot_count self.now.lines }
    {
        self.total
    }

    pub fn lines(&self) -> &[BallotLine]
        ensures lines { result.now ≡ self.now.lines }
        ensures sound { IsSound self.now.candidates self.now.lines }
    {
        self.lines.as_slice()
    }
}

/// Gives memory back where less than half of it is in use.
fn give_back(lines: &mut Vec<BallotLine>)
    ensures { lines.new.items ≡ lines.old.items }
{
    if lines.len() < lines.capacity() / 2 {
        lines.shrink_to_fit();
    }
}

fn copy_lines(alloc: Global, lines: &[BallotLine]) -> Result<Vec<BallotLine>, NoMemory>
    ensures { IfOk result (λ copied. copied.items ≡ lines.now) }
{
    let Ok(mut copied) = Vec::with_capacity(alloc, lines.len()) else {
        return Err(NoMemory);
    };
    for line in lines {
        let copy = line.copy(alloc)?;
        if copied.push(copy).is_err() {
            return Err(NoMemory);
        }
    }
    Ok(copied)
}
