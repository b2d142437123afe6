// A call without its ballots.
ghost use Rattle.std.specs.Prelude.{◌≡◌};
ghost use Rattle.day_replay.specs.Bare.{bare_call, bare_change};

use batch_core::{Call, Change};
use plain_ballots::Ballots;
use std::alloc::Global;

/// The same call without its ballots, on which no reply depends.
pub(crate) fn bare_call(alloc: Global, asked: &Call) -> Call
    ensures { result ≡ bare_call asked.now }
{
    match asked {
        Call::Change(change) => Call::Change(bare_change(alloc, change)),
        Call::Freeze => Call::Freeze,
        Call::Strike(candidate) => Call::Strike(*candidate),
    }
}

/// The same change without its ballots.
fn bare_change(alloc: Global, change: &Change) -> Change
    ensures { result ≡ bare_change change.now }
{
    match change {
        Change::Enter { batch, ballots } => Change::Enter {
            batch: *batch,
            ballots: Ballots::new(alloc, ballots.candidates()),
        },
        Change::Correct {
            batch,
            revision,
            ballots,
        } => Change::Correct {
            batch: *batch,
            revision: *revision,
            ballots: Ballots::new(alloc, ballots.candidates()),
        },
        Change::Withdraw { batch, revision } => Change::Withdraw {
            batch: *batch,
            revision: *revision,
        },
    }
}
