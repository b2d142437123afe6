//! An order of lots drawn from a seed that was found in public, so that anybody can draw it again.
//!
//! [`draw_in_public`] is the whole tool: [`takes_draw`] reads the words that ask for a draw,
//! [`draw_lots`] draws, and [`push_drawn`] writes the line. [`draw_laws`] says that a seed has one draw
//! among so many candidates, and that a draw is an order of lots.
#![tactic(auto)]

mod draw;
mod laws;
mod line;
mod tool;
mod words;

pub use draw::draw_lots;
pub use laws::draw_laws;
pub use line::push_drawn;
pub use tool::draw_in_public;
pub use words::takes_draw;
