//! A page as a tree of elements and texts, printed piece by piece.
//!
//! What is written of a tree is the start of an element ([`write_start`]), its end ([`write_end`]) and a
//! text ([`write_text`]), and none of it takes memory. [`page_laws`] says what holds of every printed tree.
//! [`write_escaped`] writes a text by other [`Escapes`] than a page's.
#![tactic(auto)]

mod attribute;
mod escapes;
mod laws;
mod tags;
mod text;

pub use attribute::Attribute;
pub use escapes::{Escapes, write_escaped};
pub use laws::page_laws;
pub use tags::{write_end, write_start};
pub use text::write_text;
