//! The text of a count, line by line: [`write_sheet`] makes the whole sheet of a count that was just begun;
//! [`write_head`], [`write_row`] and [`write_result`] write its parts.
//!
//! The sheet is defined over the rows of the count (`specs/Sheet`), before anything is written. So one text
//! is owed for an election, whoever counts it, and each writer, reader and check of sheets names that
//! definition.
#![tactic(auto)]

mod head;
mod laws;
mod line_end;
mod outcome;
mod row_text;
mod sheet;
mod words;
mod worked;

pub use head::write_head;
pub use laws::sheets_are_unique;
pub use outcome::write_result;
pub use row_text::write_row;
pub use sheet::write_sheet;
pub use worked::worked_sheet;
