//! The edge that the program and every tool beside it share: from the words and the source to one result
//! and one flush.
//!
//! A tool reads its words ([`takes_lots`], [`takes_nothing`]), then the whole source ([`open`], or
//! [`read_input`] where it reads words of its own), judges the input ([`Contest::read`] for a ballot file
//! with an order of lots, or [`StoredContest::read`] where its ballots go into a store, by
//! [`StoredContest::read_by`] in a way of the tool's), and writes what is owed, with one flush after the
//! last byte ([`finish`], [`close`]); a refusal is one line ([`refuse`], [`refuse_input`], [`refuse_words`]), and a tool may have
//! a [`Fault`] of its own. How that ended is an [`End`], which has the exit status. [`words_of`] gives a
//! `main` its words.
#![tactic(auto)]

mod contest;
mod end;
mod fault;
mod finishing;
mod laws;
mod opening;
mod process;
mod refusal;
mod words;

pub use contest::{Contest, StoredContest};
pub use end::End;
pub use fault::Fault;
pub use finishing::{close, finish};
pub use laws::{
    contests_are_not_refused, contests_are_refused_once, files_are_not_refused,
    files_are_refused_once, words_have_one_order,
};
pub use opening::{DAY_LIMIT, FILE_LIMIT, Opened, open, read_input};
pub use process::{NO_WORDS, words_of};
pub use refusal::{refuse, refuse_input, refuse_words};
pub use words::{takes_lots, takes_nothing};
