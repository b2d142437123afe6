// What became of a run.
ghost use Rattle.std.specs.Prelude.{◌≡◌, []};

use crate::Status;
use batch_core::Entries;
use call_register::History;
use std::alloc::Global;

/// What became of a run: how it ended, and the answered calls of the office. The history is empty
/// unless a day was played whose text was written, or a front of it.
#[derive(Debug, Drop)]
pub struct Outcome {
    pub status: Status,
    pub history: History,
}

impl Outcome {
    /// No call was answered.
    pub(crate) fn without_calls(alloc: Global, status: Status) -> Outcome
        ensures { result ≡ record { status = status; history = [] } }
    {
        Outcome {
            status,
            history: History::from_entries(Entries::new(alloc)),
        }
    }
}
