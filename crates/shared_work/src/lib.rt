//! Work shared out among workers: pieces of work are done beside each other, each by one worker in a thread
//! of its own, and what comes of a piece is put at its place, so that no result hangs on the number of
//! workers.
//!
//! [`done_by_workers`] does given pieces and [`made_by_workers`] numbered ones: plans are made with these.
//! [`share`] says which part of a list is whose, for the lanes of a count.
#![tactic(auto)]

mod by_workers;
mod shares;
mod slot;
mod undone;

pub use by_workers::{done_by_workers, made_by_workers};
pub use shares::share;
pub use undone::Undone;
