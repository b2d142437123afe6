//! The calls of a day made one after another, in the order in which a text says that they were made, and the verdict on
//! that text.
//!
//! [`follow`] goes along the lines of a text and gives the history whose calls are those of the text for as long as they
//! are those of any history, and [`frozen_at`] what stood at a freeze of it, a [`Frozen`]. [`judge`] compares what such a
//! day writes with the text as it comes, and [`judge_trial`] the summary of a made day; [`verdicts_are_unique`] says that
//! each text has one verdict.
#![tactic(auto)]

mod bare;
mod comparing;
mod day_verdict;
mod following;
mod frozen;
mod frozen_sheets;
mod judging;
mod laws;
mod left;
mod lines;
mod no_memory;
mod packing;
mod places;
mod replay;
mod standing;
mod trial_judging;
mod worked;

pub use day_verdict::DayVerdict;
pub use following::follow;
pub use frozen::Frozen;
pub use judging::judge;
pub use laws::verdicts_are_unique;
pub use no_memory::NoMemory;
pub use standing::frozen_at;
pub use trial_judging::judge_trial;
pub use worked::worked_calls;
