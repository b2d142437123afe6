//! Files of tokens, whatever their form: the [`Tokens`] of an input, and the [`InputStop`] with which
//! reading one ends early, by the [`InputFault`] for which it is refused or for want of memory.
//!
//! A form of files is a crate above this one: a relation that says which lists of tokens are a file, and
//! a table that says what a token leads to where something is expected. What such a table makes of a
//! text, when it accepts and how it refuses, is said and proved here for any table.
#![tactic(auto)]

mod fault_kind;
mod input_fault;
mod input_stop;
mod laws;
mod next;
mod pieces;
mod short_number;
mod token;
mod tokens;
mod what;
mod worked;

pub use fault_kind::FaultKind;
pub use input_fault::InputFault;
pub use input_stop::InputStop;
pub use laws::{cuts_to_tokens, written_items_are_read};
pub use next::Next;
pub use token::Token;
pub use tokens::Tokens;
pub use what::What;
pub use worked::{worked_bytes, worked_texts};
