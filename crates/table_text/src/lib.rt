//! Tables of ballots as text: records of fields with one separator between them, read strictly. What readers
//! take in two ways is refused at its byte, with its row and its column.
//!
//! [`Records`] gives the records one after another, each as the places of its fields in [`Cells`].
#![tactic(auto)]

mod cell;
mod cells;
mod field;
mod fronts;
mod head_byte;
mod laws;
mod mark;
mod no_memory;
mod record;
mod records;
mod separator;
mod short;
mod step;
mod text;
mod text_fault;
mod text_kind;
mod text_stop;
mod worked;

pub use cell::Cell;
pub use cells::Cells;
pub use laws::{heads_tell_separators, one_table};
pub use no_memory::NoMemory;
pub use records::Records;
pub use separator::find_separator;
pub use short::NO_NUMBER;
pub use step::Step;
pub use text_fault::{MAX_COUNT, TextFault};
pub use text_kind::TextKind;
pub use text_stop::TextStop;
pub use worked::{worked_records, worked_separators};
