// A change of one batch.
ghost use Rattle.std.specs.Prelude.{◌≡◌, ◌≤◌, ◌↔◌, true, IfOk};
ghost use Rattle.batch_core.specs.Lawful.{IsLawful, IsInRange, IsOfBatch};
ghost use Rattle.batch_core.specs.Book.{batch_of};

use crate::{LAST_NUMBER, MOST_OF_BATCH, NoMemory};
use plain_ballots::Ballots;
use std::alloc::Global;

/// A change of one batch of ballots. A correction and a withdrawal name the revision that they are
/// meant for.
#[derive(Debug, Drop)]
pub enum Change {
    Enter {
        batch: u32,
        ballots: Ballots,
    },
    Correct {
        batch: u32,
        revision: u32,
        ballots: Ballots,
    },
    Withdraw {
        batch: u32,
        revision: u32,
    },
}

impl Change {
    /// The number of the batch.
    pub fn batch(&self) -> u32
        ensures { result ≡ batch_of self.now }
    {
        match self {
            Change::Enter { batch, .. } => *batch,
            Change::Correct { batch, .. } => *batch,
            Change::Withdraw { batch, .. } => *batch,
        }
    }

    pub fn copy(&self, alloc: Global) -> Result<Change, NoMemory>
        ensures { IfOk result (λ change. change ≡ self.now) }
    {
        match self {
            Change::Enter { batch, ballots } => Ok(Change::Enter {
                batch: *batch,
                ballots: ballots.copy(alloc)?,
            }),
            Change::Correct {
                batch,
                revision,
                ballots,
            } => Ok(Change::Correct {
                batch: *batch,
                revision: *revision,
                ballots: ballots.copy(alloc)?,
            }),
            Change::Withdraw { batch, revision } => Ok(Change::Withdraw {
                batch: *batch,
                revision: *revision,
            }),
        }
    }

    /// Whether the numbers are in range and the ballots are ones of a batch of so many candidates.
    pub fn is_lawful(&self, candidates: u32) -> bool
        ensures { (result ≡ true) ↔ IsLawful candidates self.now }
    {
        match self {
            Change::Enter { batch, ballots } => is_in_range(*batch)
                && is_of_batch(ballots, candidates),
            Change::Correct {
                batch,
                revision,
                ballots,
            } => is_in_range(*batch) && is_in_range(*revision) && is_of_batch(ballots, candidates),
            Change::Withdraw { batch, revision } => is_in_range(*batch) && is_in_range(*revision),
        }
    }
}

fn is_in_range(number: u32) -> bool
    ensures { (result ≡ true) ↔ IsInRange number }
{
    1 <= number && number <= LAST_NUMBER
}

fn is_of_batch(ballots: &Ballots, candidates: u32) -> bool
    ensures { (result ≡ true) ↔ IsOfBatch candidates ballots.now }
{
    ballots.candidates() == candidates && ballots.total() <= MOST_OF_BATCH as u64
}
