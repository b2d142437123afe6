//! A board that shows how many standing ballots have each candidate first.
//!
//! [`open_board`] makes one [`Scribe`] and its [`Watchers`]. The scribe takes [`Move`]s and publishes
//! them all at once, which gives a [`Note`]; a [`Watcher`] reads the [`Totals`] after those that are then
//! published, and once it has learnt a note, after no fewer than those of the note. A watcher may be in
//! any thread, and so may a note; a read waits for nobody.
#![tactic(auto)]

mod ballot_move;
mod board;
mod board_view;
mod chronicle;
mod entry;
mod law;
mod line;
mod mark;
mod move_back;
mod no_board;
mod no_memory;
mod no_reading;
mod note;
mod opening;
mod rule;
mod scribe;
mod story;
mod totals;
mod watcher;
mod watchers;
mod worked;

pub use ballot_move::Move;
pub use move_back::MoveBack;
pub use no_board::NoBoard;
pub use no_memory::NoMemory;
pub use no_reading::NoReading;
pub use note::Note;
pub use opening::open_board;
pub use scribe::Scribe;
pub use totals::Totals;
pub use watcher::Watcher;
pub use watchers::Watchers;
pub use worked::worked_boards;
