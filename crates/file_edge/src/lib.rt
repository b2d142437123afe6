//! The edge between the words of a command and the file system: which words name files, and a file as a source of bytes.
//!
//! The program `meek` calls it, and nothing else does: each tool takes its words without the files, and sources that it
//! reads like the standard input. Which words are files is proved ([`part`]). What a file gives when it is read is up to
//! the system, as it is of the standard input, so a [`GivenSource`] tells no bytes.
#![tactic(auto)]

mod given;
mod source;
mod worked;

pub use given::{Given, part};
pub use source::{GivenSource, open};
pub use worked::worked_words;
