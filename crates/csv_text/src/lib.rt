//! Records of fields as comma-separated text, written piece by piece.
//!
//! [`write_field`] writes one field, in quotes where it needs them, and [`write_record`] a whole record;
//! neither takes memory. [`csv_laws`] says that what is written is read back as it was.
#![tactic(auto)]

mod field;
mod laws;
mod record;

pub use field::write_field;
pub use laws::csv_laws;
pub use record::write_record;
