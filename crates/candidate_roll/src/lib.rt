//! An election as it was announced: the [`Roll`] has its seats, the candidates' [`Names`], its title and who
//! was withdrawn; the [`States`] are what candidates are at a point of a count: hopeful, elected, defeated or
//! withdrawn.
//!
//! Readers of ballot files, day files and tables make rolls, and a count begins with one. What a roll's type
//! keeps (names for all candidates, few enough of them, texts that can be printed) no crate above has to ask
//! for.
#![tactic(auto)]

mod laws;
mod limits;
mod name;
mod name_stop;
mod names;
mod no_memory;
mod push_back;
mod roll;
mod roll_stop;
mod state;
mod states;

pub use laws::refusals_are_unique;
pub use limits::{MOST_NAME_BYTES, MOST_TITLE_BYTES};
pub use name::Name;
pub use name_stop::NameStop;
pub use names::Names;
pub use no_memory::NoMemory;
pub use push_back::PushBack;
pub use roll::Roll;
pub use roll_stop::RollStop;
pub use state::State;
pub use states::States;
