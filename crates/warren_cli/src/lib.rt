//! Counts by Warren's rule as a tool: [`warren`] reads a ballot file from a source, counts it by the lots of
//! its words, and writes the sheet to a sink.
//!
//! The program of the command `warren` makes this call; what counts is in the crate warren_spread.
#![tactic(auto)]

mod counting;
mod run;

pub use run::warren;
