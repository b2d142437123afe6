//! Words that say how a count went of which a text is held to be the sheet.
//!
//! [`read_check_words`] makes [`Asked`] of them: by which lots, by which
//! [`CountRule`], at how many [`Places`], and with which omega.
#![tactic(auto)]

mod asked;
mod check_option;
mod count_rule;
mod laws;
mod places;
mod reading;
mod values;
mod words;
mod worked;

pub use asked::Asked;
pub use count_rule::CountRule;
pub use laws::{lots_alone_ask_for_the_usual, words_ask_one_thing};
pub use places::Places;
pub use words::read_check_words;
pub use worked::worked_words;
