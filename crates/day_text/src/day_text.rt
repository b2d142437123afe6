// What the text of a day says.
use crate::DaySheets;
use batch_core::Entries;
use std::marker::Model;

/// The values that the text of a day of `P` places writes: all answered calls in their order, the clerk's freeze last,
/// and the sheet of each freeze. The lines print no ballots, so the calls have none (of no candidates).
#[derive(Debug, Drop)]
pub struct DayText<const P: usize> {
    pub history: Entries,
    pub sheets: DaySheets<P>,
}

impl<const P: usize> Model for DayText<P> {
    ghost use Rattle.day_text.specs.Values.{DayTextList};

    ghost Value = { DayTextList };

    ghost view = { λ v. record { history = v.history.items; sheets = v.sheets } };
}
