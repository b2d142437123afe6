//! The text of a day of ballot entry, and the histories that it can be the text of.
//!
//! A history has all answered calls: those of the teams and, last, the clerk's freeze. Its text has a line for each
//! call and then a sheet for each freeze. [`write_entries`] writes the lines; [`Terms`] is what every sheet of a day is
//! counted by. `specs/` says which text a history has (`IsDayText`), which histories a day file has (`IsHistoryOf`),
//! and so what is owed of a day file (`OwesDay`).
//!
//! The one idea: all of this is about calls and texts, and names no thread, lock or shard. So whatever makes a day,
//! checks it, exports from it or shows it rests on this crate, and what only reads its text needs nothing of the office.
#![tactic(auto)]

mod entries;
mod terms;

pub use entries::write_entries;
pub use terms::Terms;
