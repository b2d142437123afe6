//! The text of a day shown to people and to programs: its calls, what is in the end, and the sheet of each freeze;
//! as a page for a browser, as a text for a terminal, a mail or the minutes, or as JSON; and its calls alone as a
//! table for spreadsheets. People have the office's own sheet first, which is that of the last freeze.
//!
//! [`page`] is the whole tool: it shows a sheet as sheet_page does, and a day. [`pages_say_their_days`],
//! [`days_are_json`] and [`tables_of_calls_are_read_back`] say what holds of every day, and [`worked_day_page`] has
//! one as a text, as a table and as JSON byte by byte.
#![tactic(auto)]

mod call_table;
mod call_words;
mod calls_text;
mod columns;
mod csv;
mod end_part;
mod end_text;
mod freeze_links;
mod freezes;
mod html;
mod json;
mod laws;
mod minutes;
mod tool;
mod worked;

pub use laws::{
    day_pages_nest, days_are_json, pages_say_their_days, tables_of_calls_are_read_back,
};
pub use tool::page;
pub use worked::worked_day_page;
