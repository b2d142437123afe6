//! Ballot files in one canonical form: whoever holds the same ballots under the same roll writes the
//! same bytes.
//!
//! An [`Export`] stands for the ballots of plans under a roll, and [`write_blt`] writes their file. It
//! walks all plans at once and takes no memory. A [`Listing`] stands for the ballots of an election, whose
//! lines it puts in order, and [`write_listing`] writes their file.
#![tactic(auto)]

mod cursor;
mod entry;
mod export;
mod file;
mod kinds;
mod laws;
mod listing;
mod merge;
mod no_memory;
mod numbers;
mod packed;
mod page;
mod ranks;
mod rows;
mod runs;
mod shelf;
mod shelves;
mod short_numbers;
mod worked;

pub use export::{Export, write_blt};
pub use laws::{every_bag_has_a_text, one_bag_has_one_text, texts_are_read};
pub use listing::{Listing, write_listing};
pub use no_memory::NoMemory;
pub use worked::worked_texts;
