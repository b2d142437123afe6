//! A line of text under way: a [`Line`] takes bytes, whole numbers and amounts at its end, in a buffer of a
//! fixed size, and so takes no memory. Sheets, refusals and verdicts are written line by line with it.
#![tactic(auto)]

mod line;

pub use line::Line;
