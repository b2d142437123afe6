//! What the marks of a ballot come to: [`treat`] makes a ranking of its [`Marks`] by a [`Treatment`], which
//! says what becomes of skipped ranks, of ranks that more than one candidate has, and of candidates that
//! are repeated.
#![tactic(auto)]

mod choice;
mod laws;
mod mark;
mod marks;
mod says;
mod so_far;
mod treat_stop;
mod treated;
mod treating;
mod treatment;
mod way;
mod why;
mod worked;

pub use choice::Treat;
pub use laws::{rankings_of_marks, treatments_only_mend};
pub use mark::Mark;
pub use marks::Marks;
pub use says::Says;
pub use treat_stop::TreatStop;
pub use treated::Treated;
pub use treating::treat;
pub use treatment::Treatment;
pub use way::Way;
pub use why::Why;
pub use worked::worked_marks;
