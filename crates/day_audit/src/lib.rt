//! The tool that says whether a text is that of a day: [`audit`] cuts its input into a text and a day file
//! ([`text_and_file`], [`read_day_file`]), or takes it as the summary of a made day, and writes the verdict of the crate
//! day_replay as a line. [`audit_two`] takes the text and the day file as two inputs, each whole.
//!
//! The program of the command `audit` makes this call; `ballots` cuts its input in the same way. [`true_texts_are_split`]
//! says that no such cut goes through a true text, and none of the crate sheet_check through a sheet.
#![tactic(auto)]

mod audit_asked;
mod day_file;
mod laws;
mod split;
mod tool;
mod two_files;
mod verdict_line;
mod words;
mod worked;

pub use audit_asked::AuditAsked;
pub use day_file::{read_day_file, read_whole_day};
pub use laws::true_texts_are_split;
pub use split::{ended, text_and_file};
pub use tool::audit;
pub use two_files::audit_two;
pub use verdict_line::line_of;
pub use worked::worked_audits;
