//! Tables of ballots and texts of PrefLib as ballot files, and reports on them: [`import`] reads an input of the form that
//! the words describe, and writes the canonical text of the ballots that it says, or what became of them in numbers. Any
//! other input is refused with an [`ImportFault`]. [`tables_have_one_text`] says that there is one text at most.
#![tactic(auto)]

mod form;
mod import_fault;
mod kinds;
mod laws;
mod pref_form;
mod read;
mod read_stop;
mod report;
mod run;
mod table_form;
mod tables;
mod writing;

pub use import_fault::ImportFault;
pub use laws::{records_have_one_text, tables_have_one_text};
pub use run::import;
