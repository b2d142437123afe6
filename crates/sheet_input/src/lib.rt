//! A sheet as the input of a tool: which texts are sheets, and how an input that is none is refused.
//!
//! A sheet is a text that some values have as their form of nine places (`HasForm` of sheet_reader); whether
//! a count gave it is another question. Every other input is refused with a [`SheetFault`]; an input with a sheet in
//! it has at most [`SHEET_LIMIT`] bytes.
#![tactic(auto)]

mod sheet_fault;
mod sheet_limit;

pub use sheet_fault::SheetFault;
pub use sheet_limit::SHEET_LIMIT;
