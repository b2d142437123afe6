//! A lock for a value that keeps a list which only grows.
//!
//! A [`TurnLock`] has one value of a type that is [`Kept`]. Threads come to it by [`Seat`]s, and
//! one seat at a time has the turn, and with it the value as a [`Held`]. Each seat knows a
//! beginning of the value's entries, and whoever takes the turn finds all that it had seen, with
//! what others added since. An entry can have an owner, the number of the seat that gave it, so
//! that a seat knows all entries of its own. [`NewBack`] hands the value back where there was no
//! memory for a lock.
#![tactic(auto)]

mod held;
mod kept;
mod lock;
mod new_back;
mod rule;
mod seat;
mod steps;
mod view;

pub use held::Held;
pub use kept::Kept;
pub use lock::TurnLock;
pub use new_back::NewBack;
pub use seat::Seat;
