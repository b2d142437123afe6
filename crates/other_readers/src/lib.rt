//! Tables as text are read alike by other readers of comma-separated text: by the reader of the kit's crate `csv`,
//! with its defaults and whatever separator, and by that of `csv_text`. So a table that is accepted here says elsewhere
//! what it says here. No program uses this crate: it has these laws alone.
#![tactic(auto)]

mod laws;

pub use laws::others_read_alike;
