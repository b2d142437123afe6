// A batch that was entered.
ghost use Rattle.std.specs.Prelude.{◌≡◌, ◌≤◌, Some};
ghost use Rattle.batch_core.specs.declared.limits.TheConstants.{LAST_NUMBER};
ghost use Rattle.batch_core.specs.Book.{refusal, change_reply, change_after};

use crate::{Change, LAST_NUMBER, Reply};
use plain_ballots::Ballots;

/// A batch that was entered: its revision, and its ballots, or none where it is gone.
#[derive(Drop)]
pub(crate) struct Batch {
    pub(crate) revision: u32,
    pub(crate) standing: Option<Ballots>,
}

impl Batch {
    /// Answers a change of this batch.
    pub(crate) fn change(&mut self, change: Change) -> Reply
        requires { self.old.revision ≤ LAST_NUMBER }
        ensures answered { result ≡ change_reply (Some self.old) change }
        ensures kept { Some self.new ≡ change_after (Some self.old) change result }
    {
        match change {
            Change::Enter { .. } => Reply::Exists(self.revision),
            Change::Correct {
                revision,
                ballots,
                ..
            } => {
                if let Some(refusal) = self.refusal(revision) {
                    return refusal;
                }
                self.revision += 1;
                self.standing = Some(ballots);
                Reply::Corrected(self.revision)
            }
            Change::Withdraw { revision, .. } => {
                if let Some(refusal) = self.refusal(revision) {
                    return refusal;
                }
                self.revision += 1;
                self.standing = None;
                Reply::Withdrawn(self.revision)
            }
        }
    }

    /// Why a correction or withdrawal that names this revision is refused, if it is.
    fn refusal(&self, revision: u32) -> Option<Reply>
        ensures { result ≡ refusal self.now revision }
    {
        if self.standing.is_none() {
            return Some(Reply::Gone(self.revision));
        }
        if revision != self.revision {
            return Some(Reply::Stale(self.revision));
        }
        if self.revision == LAST_NUMBER {
            return Some(Reply::Spent);
        }
        None
    }
}
