//! A sheet as it is read: [`read_sheet`] gives the values that a text writes, where it is the text of a sheet
//! of so many places at all, and [`check_form`] says whether it is.
//!
//! Pages, minutes, promises and checks begin with it. It asks nothing of the count: whether a sheet is true
//! is for the crate sheet_check to say. The form of a sheet is what its values write (`specs/Form`), and a
//! number is read by writing it again; so a text has one list of values at most.
#![tactic(auto)]

mod cut;
mod decision;
mod form;
mod head;
mod laws;
mod lines;
mod list;
mod number;
mod outcomes;
mod push_back;
mod row_list;
mod row_reader;
mod row_sink;
mod sheet;
mod sheet_parts;
mod sheet_stop;
mod sheet_values;
mod standing;

pub use form::check_form;
pub use laws::{iterations_say_their_places, sheets_are_read_back, written_values_are_read};
pub use push_back::PushBack;
pub use row_list::RowList;
pub use sheet::read_sheet;
pub use sheet_stop::SheetStop;
pub use sheet_values::{SheetValues, SheetValuesAt};
