//! The ballot file of what is at a freeze of a day, out of the day's text and its day file.
//!
//! [`ballots`] is the whole tool, and [`ballots_two`] the same over two inputs, the text and the file: [`takes_line`] reads its words, the day's calls are made again along the lines
//! of the text, and what is at the freeze of a line is written in canonical form. An input with nothing to
//! write is refused with a [`BallotsFault`]. [`freezes_are_counted`] says that the file is read as these ballots,
//! and that its sheet is the freeze's.
#![tactic(auto)]

mod ballots_fault;
mod calls;
mod finding;
mod freezes;
mod laws;
mod tool;
mod two_files;
mod words;
mod worked;
mod writing;

pub use ballots_fault::BallotsFault;
pub use laws::freezes_are_counted;
pub use tool::ballots;
pub use two_files::ballots_two;
pub use words::{LAST_LINE, takes_line};
pub use worked::worked_freezes;
