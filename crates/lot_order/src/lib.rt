//! The recorded order of lots by which ties are broken: [`Lots`], an order of all candidates, and [`Flags`],
//! a mark for each candidate.
//!
//! Lots are drawn before the count (crate lot_draw) and read from words or a day file; the rule asks which of
//! several candidates comes first or last in them. An order has each candidate once, and its type keeps that.
#![tactic(auto)]

mod flags;
mod laws;
mod lots;
mod lots_stop;
mod no_memory;

pub use flags::Flags;
pub use laws::lots_laws;
pub use lots::Lots;
pub use lots_stop::LotsStop;
pub use no_memory::NoMemory;
