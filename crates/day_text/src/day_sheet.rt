// The sheet of a freeze.
use sheet_reader::SheetValuesAt;
use std::marker::Model;

/// The number of a freeze's line, and the values of the sheet of that freeze.
#[derive(Debug, Drop)]
pub struct DaySheet<const P: usize> {
    pub freeze: u64,
    pub values: SheetValuesAt<P>,
}

impl<const P: usize> Model for DaySheet<P> {
    ghost use Rattle.day_text.specs.Values.{FrozenSheet};

    ghost Value = { FrozenSheet };

    ghost view = { λ s. record { freeze = s.freeze; values = s.values } };
}
