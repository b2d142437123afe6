// What the index has of a batch.
ghost use Rattle.std.specs.Prelude.{◌≡◌, ◌≤◌, Some};
ghost use Rattle.batch_core.specs.declared.limits.TheConstants.{LAST_NUMBER};
ghost use Rattle.batch_core.specs.Book.{refusal, change_reply};
ghost use Rattle.shard_book.specs.Rows.{outline, row_after};

use batch_core::{Change, LAST_NUMBER, Reply};

/// A batch that was entered: its revision, and the place of the entry whose ballots stand, or none
/// where the batch is gone.
#[derive(Clone, Copy, Drop)]
pub(crate) struct Row {
    pub(crate) revision: u32,
    pub(crate) place: Option<usize>,
}

impl Row {
    /// Answers a change of this batch, whose entry comes to this place.
    pub(crate) fn change(&mut self, change: &Change, place: usize) -> Reply
        requires { self.old.revision ≤ LAST_NUMBER }
        ensures answered { result ≡ change_reply (Some (outline self.old)) change.now }
        ensures row { self.new ≡ row_after self.old result place }
    {
        match change {
            Change::Enter { .. } => Reply::Exists(self.revision),
            Change::Correct { revision, .. } => {
                if let Some(refusal) = self.refusal(*revision) {
                    return refusal;
                }
                self.revision += 1;
                self.place = Some(place);
                Reply::Corrected(self.revision)
            }
            Change::Withdraw { revision, .. } => {
                if let Some(refusal) = self.refusal(*revision) {
                    return refusal;
                }
                self.revision += 1;
                self.place = None;
                Reply::Withdrawn(self.revision)
            }
        }
    }

    /// Why a correction or withdrawal that names this revision is refused, if it is.
    fn refusal(&self, revision: u32) -> Option<Reply>
        ensures { result ≡ refusal (outline self.now) revision }
    {
        if self.place.is_none() {
            return Some(Reply::Gone(self.revision));
        }
        if revision != self.revision {
            return Some(Reply::Stale(self.revision));
        }
        if self.revision == LAST_NUMBER {
            return Some(Reply::Spent);
        }
        None
    }
}
