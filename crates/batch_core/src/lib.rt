//! What callers ask of a count office, and the plain [`Book`] that answers: a [`Change`] of one batch of
//! ballots, a [`Call`] of any kind, its [`Reply`], and the [`Entry`] that keeps both.
//!
//! The rules of replies are here, as definitions (`specs/Book`) and as one body that answers one call after
//! another. The office of several threads is held to the same definitions, and who makes the calls of a day's
//! text again uses this book itself.
#![tactic(auto)]

mod batch;
mod book;
mod call;
mod calls;
mod change;
mod entries;
mod entry;
mod laws;
mod limits;
mod no_memory;
mod push_back;
mod reply;
mod shard;
mod step_back;

pub use book::Book;
pub use call::Call;
pub use calls::Calls;
pub use change::Change;
pub use entries::Entries;
pub use entry::Entry;
pub use laws::{
    a_book_answers_a_history, a_legal_history_has_the_books_replies,
    lawful_calls_leave_lawful_batches, struck_candidates_are_listed_once,
};
pub use limits::{LAST_NUMBER, MOST_OF_BATCH, MOST_STANDING, MOST_TEAMS};
pub use no_memory::NoMemory;
pub use push_back::PushBack;
pub use reply::Reply;
pub use shard::shard_of;
pub use step_back::StepBack;
