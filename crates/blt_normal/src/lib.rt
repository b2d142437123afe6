//! Ballot files in their canonical form, as a program: [`normal`] reads a ballot file from a source and
//! writes the canonical text of its ballots to a sink. [`texts_stay`] says that a canonical text is left
//! as it is.
#![tactic(auto)]

mod laws;
mod rewriting;
mod run;

pub use laws::texts_stay;
pub use run::normal;
