//! Days of ballot entry that are made from a number, so that an office can be tried at any size: [`make_day`]
//! writes the day file of a number from 1 to 1,000.
//!
//! The file is a definition (`trial_day`), so anybody can make it: `trial` plays it, and `audit --trial`
//! judges its summary.
#![tactic(auto)]

mod ballots;
mod day;
mod draws;
mod no_memory;
mod text;

pub use day::{MOST_TRIAL, make_day};
pub use no_memory::NoMemory;
