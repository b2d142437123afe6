// The text of a day as a whole.
ghost use Rattle.std.specs.Prelude.{◌≤◌};
ghost use Rattle.day_text.specs.Reading.{Reads};

use crate::history_reader::{freeze_lines, read_history};
use crate::sheets_reader::read_sheets;
use crate::{DayStop, DayText};
use sheet_reader::written_values_are_read;
use std::alloc::Global;

/// The values of which a text is the text of a day of `P` places.
pub fn read_day_text<const P: usize>(alloc: Global, bytes: &[u8]) -> Result<DayText<P>, DayStop>
    requires places { (6 ≤ P) × (P ≤ 9) }
    ensures { Reads P bytes.now result }
{
    written_values_are_read();
    let (history, behind) = match read_history(alloc, bytes) {
        Ok(read) => read,
        Err(stop) => return Err(stop),
    };
    let freezes = match freeze_lines(alloc, &history) {
        Ok(freezes) => freezes,
        Err(_) => return Err(DayStop::NoMemory),
    };
    let (sheets, rest) = match read_sheets::<P>(alloc, freezes.as_slice(), behind) {
        Ok(read) => read,
        Err(stop) => return Err(stop),
    };
    if !rest.is_empty() {
        return Err(DayStop::Malformed);
    }
    Ok(DayText { history, sheets })
}
