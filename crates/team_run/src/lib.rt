//! Teams at a shared office: [`run_teams`] makes the calls of each team's script in a thread of its own, and
//! gives the [`Versions`] of all freezes. [`write_entries`], of the crate day_lines, writes the history that
//! came of it.
//!
//! The program's `day` and `trial` are played with it. Its contract says that the calls were answered as one
//! legal history, and not in which order the teams came: that is up to their threads.
#![tactic(auto)]

mod calls;
mod closing;
mod laws;
mod no_memory;
mod opening;
mod push_back;
mod team;
mod teams;
mod threads;
mod versions;

pub use day_lines::write_entries;
pub use laws::{days_end_with_the_clerk, scripts_of_a_day_may_run};
pub use no_memory::NoMemory;
pub use push_back::PushBack;
pub use teams::run_teams;
pub use versions::Versions;
