//! Counts in lanes, from the plans of their ballots to a text.
//!
//! [`write_in_lanes`] begins a count of each list of plans in workers' lanes, a [`Crew`]'s, and then has
//! a [`CountText`] made of them: what the text is, its own type says. [`write_sheet_in_lanes`] deals ballots
//! out and writes their sheet. Memory may be wanted before the first byte, and never after it.
#![tactic(auto)]

mod begun_count;
mod begun_counts;
mod begun_lanes;
mod count_text;
mod crew;
mod in_lanes;
mod no_memory;
mod one_sheet;
mod polls;

pub use begun_count::BegunCount;
pub use begun_counts::begin_counts;
pub use count_text::CountText;
pub use crew::Crew;
pub use in_lanes::write_in_lanes;
pub use no_memory::NoMemory;
pub use one_sheet::write_sheet_in_lanes;
pub use polls::Polls;
