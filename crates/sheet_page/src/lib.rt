//! A sheet shown to people and to programs: as a page of its own, as a table for spreadsheets, as
//! JSON, or as a text for a terminal, a mail or the minutes.
//!
//! [`show_sheet`] shows an input: `read_sheet` reads the values, and what is written is a function of these
//! values, in the format that [`takes_format`] reads from words. What is no sheet is refused with a `SheetFault`
//! of sheet_input. More than a sheet is written with a [`Pen`]: [`write_sheet_parts`] writes what a page shows of
//! a sheet, and [`write_sheet_json`] its JSON.
#![tactic(auto)]

mod bars;
mod cell;
mod csv;
mod digits;
mod elected;
mod figures;
mod format;
mod html;
mod items;
mod iterations;
mod json;
mod json_text;
mod laws;
mod links;
mod part_names;
mod pen;
mod picture;
mod piece;
mod promised;
mod ranks;
mod round_parts;
mod rounds;
mod stretches;
mod style;
mod table;
mod told;
mod tool;
mod values;
mod widths;
mod words;
mod worked;

pub use cell::Cell;
pub use format::Format;
pub use html::{write_sheet_parts, write_style};
pub use json::{comma_at, truth, write_sheet_json};
pub use laws::{
    pages_nest, pages_say_their_sheets, pictures_are_small, rising_rounds_are_whole,
    sheets_are_json, strings_are_read_back, tables_are_read_back,
};
pub use part_names::PartNames;
pub use pen::Pen;
pub use piece::Piece;
pub use tool::show_sheet;
pub use words::takes_format;
pub use worked::{worked_part, worked_strings, worked_texts};
