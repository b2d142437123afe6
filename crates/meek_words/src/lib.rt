//! The words of the command line, read as a command.
//!
//! A [`Command`] is what the program is asked to do, with its settings. [`LotWords`] is the order of
//! lots as it was typed, before anybody compares it with a roll. [`WordsStop`] says why no command
//! came of the words, and [`PushBack`] hands back a number for which there was no memory.
#![tactic(auto)]

mod command;
mod found;
mod laws;
mod limits;
mod lot_words;
mod lots;
mod numeral;
mod option_name;
mod push_back;
mod spelling;
mod stood;
mod values;
mod words;
mod words_stop;

pub use command::Command;
pub use laws::{words_have_one_command, words_have_one_lot_list};
pub use lot_words::LotWords;
pub use lots::read_lots;
pub use push_back::PushBack;
pub use words::read_words;
pub use words_stop::WordsStop;
