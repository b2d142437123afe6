// What the words say of the election itself.
ghost use Rattle.std.specs.Prelude.{◌≡◌, IfOk};
ghost use Rattle.import_words.specs.Asks.{SaysRoll};
ghost use Rattle.import_words.specs.Values.{given_by};
ghost use Rattle.import_words.specs.declared.roll_words.RollWords.{RollWords};

use crate::reading;
use crate::values::Values;
use candidate_roll::{MOST_TITLE_BYTES, Name, Names};
use meek_words::{LotWords, WordsStop};
use std::alloc::Global;

/// What the words say of the election itself.
#[derive(Debug, Drop)]
pub struct RollWords {
    pub seats: u32,
    /// Empty where none is said.
    pub title: Name<MOST_TITLE_BYTES>,
    /// Numbers as they were typed, which need not be candidates'.
    pub withdrawn: LotWords,
    /// The candidates' names, where the layout does not have them.
    pub candidates: Names,
}

impl RollWords {
    pub(crate) fn read(alloc: Global, values: &Values<'_>) -> Result<RollWords, WordsStop>
        ensures accepted { IfOk result (λ roll. SaysRoll (given_by values.now) roll) }
        ensures refused { result ≡ Err WordsStop.BadWords
            → (roll : RollWords) → ¬ (SaysRoll (given_by values.now) roll) }
    {
        Ok(RollWords {
            seats: reading::seats(alloc, values.seats)?,
            title: reading::title(alloc, values.title)?,
            withdrawn: reading::withdrawn(alloc, values.withdrawn)?,
            candidates: reading::names(alloc, values.candidates.as_slice())?,
        })
    }
}
