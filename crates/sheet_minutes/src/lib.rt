//! A sheet as a text for a terminal, a mail or the minutes: the title, the result, a table of the rounds of
//! at most 80 columns, and what each round decided, in sentences.
//!
//! [`write_minutes`] writes the text of a sheet's values, and takes no memory. [`tables_fit`] says what holds
//! of every table, [`texts_are_tame`] that no control character of a name is written, and
//! [`worked_minutes`] has texts worked by hand. What a table of rounds has in its lines and columns is said
//! here once, also for other texts: [`ends_round`] where a column is, [`states_behind`] and [`left_over`]
//! what is in it, and [`Entry`] what a line is about.
#![tactic(auto)]

mod block;
mod blocks;
mod cell;
mod columns;
mod decisions;
mod entry;
mod heading;
mod label;
mod laws;
mod line;
mod minutes;
mod name;
mod piece;
mod pieces;
mod plain;
mod result;
mod rounds;
mod spoken;
mod table;
mod widths;
mod worked;

pub use entry::Entry;
pub use laws::{tables_fit, texts_are_tame};
pub use minutes::write_minutes;
pub use rounds::{ends_round, left_over, states_behind};
pub use worked::worked_minutes;
