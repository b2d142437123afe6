// What a change makes of a batch.
ghost use Rattle.std.specs.Prelude.{◌≡◌, ◌≤◌, ◌+◌, ℕ, Option, Some, None, is_none, true, false};
ghost use Rattle.batch_core.specs.declared.limits.TheConstants.{LAST_NUMBER};
ghost use Rattle.batch_core.specs.declared.batch.Batch.{Batch};
ghost use Rattle.batch_core.specs.Book.{batch_of, change_after, change_reply, refusal};
ghost use Rattle.day_text.specs.End.{IsRevised, batch_end};

use crate::BatchEnd;
use batch_core::{Change, LAST_NUMBER};

/// What became of a batch by a change of it, with what became of it before.
pub(crate) fn changed(kept: Option<BatchEnd>, change: &Change) -> Option<BatchEnd>
    requires { IsRevised kept }
    ensures revised { IsRevised result }
    ensures after { (batch : Option Batch) → kept ≡ batch_end (batch_of change.now) batch
        → result ≡ batch_end (batch_of change.now) (change_after batch change.now (change_reply batch change.now)) }
{
    match kept {
        Some(end) => Some(renewed(end, change)),
        None => entered(change),
    }
}

/// What becomes of a batch that was never entered.
fn entered(change: &Change) -> Option<BatchEnd>
    ensures revised { IsRevised result }
    ensures after { result ≡ batch_end (batch_of change.now) (change_after None change.now (change_reply None change.now)) }
{
    match change {
        Change::Enter { batch, .. } => Some(BatchEnd {
            number: *batch,
            revision: 1,
            stands: true,
        }),
        Change::Correct { .. } => None,
        Change::Withdraw { .. } => None,
    }
}

/// What becomes of a batch that was entered.
fn renewed(end: BatchEnd, change: &Change) -> BatchEnd
    requires { end.revision ≤ LAST_NUMBER }
    ensures revised { result.revision ≤ LAST_NUMBER }
    ensures after { (batch : Batch) → Some end ≡ batch_end (batch_of change.now) (Some batch)
        → Some result ≡ batch_end (batch_of change.now) (change_after (Some batch) change.now (change_reply (Some batch) change.now)) }
{
    match change {
        Change::Enter { .. } => end,
        Change::Correct { revision, .. } => next(end, *revision, true),
        Change::Withdraw { revision, .. } => next(end, *revision, false),
    }
}

/// The batch at its next revision, standing or gone, where a change that names this revision is carried out; else the
/// batch as it was.
fn next(end: BatchEnd, revision: u32, stands: bool) -> BatchEnd
    requires { end.revision ≤ LAST_NUMBER }
    ensures revised { result.revision ≤ LAST_NUMBER }
    ensures refused { (number : ℕ) (batch : Batch) → Some end ≡ batch_end number (Some batch) → is_none (refusal batch revision) ≡ false → result ≡ end }
    ensures carried_out { (number : ℕ) (batch : Batch) → Some end ≡ batch_end number (Some batch) → is_none (refusal batch revision) ≡ true
        → result ≡ record { number = end.number; revision = end.revision + 1; stands = stands } }
{
    if !end.stands {
        return end;
    }
    if revision != end.revision {
        return end;
    }
    if end.revision == LAST_NUMBER {
        return end;
    }
    BatchEnd {
        number: end.number,
        revision: end.revision + 1,
        stands,
    }
}
