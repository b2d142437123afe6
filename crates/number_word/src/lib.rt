//! Numbers in the words of a command line: [`read_number`] reads a word that writes one number, as the tools
//! that take a number (`check`, `draw`, `audit`, `ballots`) do; [`takes_number`] reads words that are one option
//! and its number, for the tools that take no other words (`audit --trial N`, `ballots --at N`).
//!
//! A number has the form of a list of lots with one member, so that all words of this repository have one
//! form of numbers. That words say one number at most is a law ([`words_have_one_number`]), by which a run has
//! one meaning.
#![tactic(auto)]

mod laws;
mod number;
mod taken;

pub use laws::words_have_one_number;
pub use number::read_number;
pub use taken::takes_number;
