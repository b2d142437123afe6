//! What a count decided, in sentences: who reached the quota and is elected, who is defeated and why,
//! whose keep value is capped, why the count ends, and what became of each candidate. All of it is said
//! of the values of a sheet; what a sheet does not say, as the order of the lots, is not said here.
//!
//! [`write_decisions`] writes a line for each sentence. A [`Voice`] says how sentences are written in
//! other texts: [`write_sentences`] writes all of them so, [`write_sentences_of`] those of an iteration,
//! [`write_end`] those of the end, and [`write_outcomes`] what became of each candidate. What they say of
//! lots and of the last seats is told to programs too, by [`is_by_lots`] and [`last_seats`].
#![tactic(auto)]

mod decision;
mod decisions;
mod elections;
mod end;
mod facts;
mod group;
mod laws;
mod members;
mod part;
mod results;
mod saying;
mod sentences;
mod story;
mod voice;
mod worked;

pub use decisions::write_sentences_of;
pub use end::write_end;
pub use facts::{is_by_lots, last_seats};
pub use laws::{each_has_one_fate, each_has_one_sentence};
pub use results::write_outcomes;
pub use story::{write_decisions, write_sentences};
pub use voice::{Lines, Voice};
pub use worked::worked_decisions;
