//! Texts of PrefLib: metadata, orders of candidates, the ballots that the orders stand for, and the first fault
//! where a text is refused. [`read_preflib`] reads a whole text, as a [`PrefAsked`] says, and gives what it comes to
//! as an [`Imported`], with the [`Tally`] of its ballots.
#![tactic(auto)]

mod blanks;
mod braced;
mod counted;
mod entry;
mod entry_value;
mod expected;
mod head;
mod imported;
mod laws;
mod line;
mod lines;
mod named;
mod numeral;
mod order;
mod order_lines;
mod order_stop;
mod part;
mod part_stop;
mod pref_asked;
mod pref_fault;
mod pref_kind;
mod pref_stop;
mod reader;
mod tally;
mod worked;

pub use imported::Imported;
pub use laws::{
    fault_or_ballots, orders_say_rankings, tallies_count_ballots, texts_are_only_mended,
};
pub use pref_asked::PrefAsked;
pub use pref_fault::PrefFault;
pub use pref_kind::PrefKind;
pub use pref_stop::PrefStop;
pub use reader::read_preflib;
pub use tally::Tally;
pub use worked::{worked_orders, worked_rankings};
