//! An office that several callers share. They change batches of ballots, strike candidates and freeze
//! what stands, each in a thread of its own if they like; all their calls are one legal history.
//!
//! An office is used in this order:
//!
//! 1. [`Office::try_new`] opens it, with its [`Clerk`].
//! 2. [`Clerk::team`] makes a [`Pass`] for each caller, by rising numbers.
//! 3. A caller makes its calls by its pass: [`Office::call`] for a change, [`Office::strike`], and
//!    [`Office::freeze`], which gives a [`Version`] of what stands and may start threads to make it.
//! 4. [`Clerk::take_in`] takes the passes back. [`Office::clerk_freeze`] is a freeze of the clerk's own.
//! 5. When no pass is out, [`Office::close`] gives the history; where memory runs out it gives a
//!    [`Closing`], which may be tried again.
//!
//! Batches are dealt out among the office's shards, each after a lock of its own. A change is kept
//! as an entry of its shard; the order of all calls is kept as marks, after one more lock. Contracts
//! see of a pass what it has seen of all this, its sight, which only grows: marks, and entries of each
//! shard. Its own calls are those of its caller in the history that its sight shows.
//!
//! Shards are numbered from 1, and a list for all shards has that of shard s at index s - 1. A place in
//! a history counts from 1, so that it is the number of calls up to it.
#![tactic(auto)]

mod asked;
mod call_back;
mod changing;
mod clerk;
mod close_back;
mod closing;
mod desk;
mod ending;
mod entering;
mod freezing;
mod laws;
mod limits;
mod meeting;
mod no_memory;
mod office;
mod opening;
mod pass;
mod planning;
mod register_value;
mod shard_value;
mod striking;
mod turns;
mod version;
mod window;

pub use call_back::CallBack;
pub use clerk::Clerk;
pub use close_back::CloseBack;
pub use closing::Closing;
pub use laws::{
    calls_stand_at_their_marks, histories_go_on, the_clerk_has_seen_all, versions_stay,
};
pub use limits::MOST_SHARDS;
pub use no_memory::NoMemory;
pub use office::Office;
pub use pass::Pass;
pub use version::Version;
