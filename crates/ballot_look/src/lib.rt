//! The tool that says what a ballot file holds before it is counted: [`look`] reads a ballot file from a
//! source, and writes to a sink what the crate ballot_findings finds in it.
//!
//! The program of the command `look` makes this call. A front end that has the bytes of a file at hand calls
//! that crate.
#![tactic(auto)]

mod run;

pub use ballot_findings::{looks_are_owed, tokens_are_theirs, worked_looks};
pub use run::look;
