//! Two numbers that lie in two places and are always equal.
//!
//! A [`Tie`] is shared. Its two [`Half`]s lie apart, as beside the values after two locks, and
//! each has a number. Whoever has both halves at hand learns that their numbers are equal, and
//! may raise both by one; nobody can change one half alone. [`NoMemory`] says that a tie could
//! not be made.
#![tactic(auto)]

mod half;
mod no_memory;
mod rule;
mod share;
mod tie;

pub use half::Half;
pub use no_memory::NoMemory;
pub use tie::Tie;
