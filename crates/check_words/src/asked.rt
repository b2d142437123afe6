// What the words ask for.
ghost use Rattle.std.specs.Prelude.{◌≡◌, IfOk};
ghost use Rattle.check_words.specs.Asks.{Says};
ghost use Rattle.check_words.specs.Values.{values_in};
ghost use Rattle.check_words.specs.declared.asked.Asked.{Asked};

use crate::values::Values;
use crate::{CountRule, Places, reading};
use fixed_place::Omega;
use meek_words::{LotWords, WordsStop};
use std::alloc::Global;

/// What the words ask for: how the count went of which a text is held to be the sheet.
#[derive(Debug, Drop)]
pub struct Asked {
    /// As they were typed, before anybody compares them with a roll.
    pub lots: LotWords,
    pub rule: CountRule,
    pub places: Places,
    /// In units of the sheet's last place.
    pub omega: Omega,
}

impl Asked {
    pub(crate) fn read(alloc: Global, values: Values<'_>) -> Result<Asked, WordsStop>
        ensures accepted { IfOk result (Says (values_in values.entry)) }
        ensures refused { result ≡ Err WordsStop.BadWords
            → (asked : Asked) → ¬ (Says (values_in values.entry) asked) }
    {
        Ok(Asked {
            lots: reading::lots(alloc, values.lots)?,
            rule: reading::rule(values.rule)?,
            places: reading::places(values.places)?,
            omega: reading::omega(alloc, values.omega)?,
        })
    }
}
