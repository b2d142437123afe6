//! Ballot files: the [`Election`] that a file says, or the [`InputFault`] for which it is refused. Rolls
//! and ballot lines are read by themselves too, for other files that have them. [`read_blt_into`] puts the
//! ballots into any [`packed_ballots::BallotStore`], as a [`StoredElection`].
//!
//! The tokens of a file and its refusals are those of any file, from the crate `input_text`, and their
//! types are passed on; `BltStop` is the `InputStop` of there.
#![tactic(auto)]

mod election;
mod files;
mod laws;
mod line_bounds;
mod line_reader;
mod lines;
mod named;
mod names;
mod opening;
mod rolls;
mod worked;

pub use election::{Election, StoredElection};
pub use files::{read_blt, read_blt_by, read_blt_into};
pub use input_text::{FaultKind, InputFault, InputStop as BltStop, Next, Token, Tokens, What};
pub use laws::{
    accepts_files, accepts_rolls, expects_lines_rightly, expects_rightly, expects_rolls_rightly,
    follows_open_lists, has_one_poll, refuses_all_else, refuses_by_the_rule,
    refuses_rolls_by_the_rule,
};
pub use line_bounds::LineBounds;
pub use line_reader::{LineReader, OneByOne};
pub use lines::{LinePiece, read_lines, read_lines_on, read_piece};
pub use rolls::read_roll;
pub use worked::worked_files;
