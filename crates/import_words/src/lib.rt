//! The words of a tool that reads tables of ballots.
//!
//! [`read_import_words`] makes [`Asked`] of them, which says the table's [`Layout`] and what becomes of
//! each thing in it that is not plain.
#![tactic(auto)]

mod asked;
mod cells;
mod different;
mod empty_rows;
mod head_names;
mod head_words;
mod import_option;
mod label;
mod labels;
mod laws;
mod layout;
mod output;
mod pair;
mod pairs;
mod reading;
mod roll_words;
mod separator;
mod settings;
mod single_values;
mod table_words;
mod values;
mod words;
mod worked;

pub use asked::Asked;
pub use cells::CellWords;
pub use empty_rows::EmptyRows;
pub use head_names::HeadNames;
pub use head_words::HeadWords;
pub use label::Label;
pub use labels::Labels;
pub use laws::words_ask_one_thing;
pub use layout::Layout;
pub use output::Output;
pub use roll_words::RollWords;
pub use separator::Separator;
pub use table_words::TableWords;
pub use words::read_import_words;
pub use worked::worked_words;
