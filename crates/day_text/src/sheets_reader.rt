// The sheets of a day.
ghost use Rattle.std.specs.Prelude.{◌≤◌, ℕ, List, MatchResult};
ghost use Rattle.day_text.specs.Refusal.{Stops};
ghost use Rattle.day_text.specs.SheetParts.{BeginsWithSheet, BeginsWithSheets};
ghost use Rattle.day_text.specs.Values.{FrozenSheet};

use crate::sheet_cut::{behind_sheet_line, cut_sheet};
use crate::{DaySheet, DaySheets, DayStop};
use sheet_reader::{SheetStop, read_sheet, written_values_are_read};
use std::alloc::Global;

/// The sheets of the freezes of these lines, and what is after them.
pub(crate) fn read_sheets<'a, const P: usize>(
    alloc: Global,
    freezes: &[u64],
    text: &'a [u8],
) -> Result<(DaySheets<P>, &'a [u8]), DayStop>
    requires places { (6 ≤ P) × (P ≤ 9) }
    ensures { MatchResult result
        (λ read. BeginsWithSheets P freezes.now text.now read.0 read.1.now)
        (λ stop. Stops stop ((sheets : List FrozenSheet) (rest : List ℕ) → ¬ (BeginsWithSheets P freezes.now text.now sheets rest))) }
{
    written_values_are_read();
    let mut sheets = DaySheets::<P>::new(alloc);
    let mut rest = text;
    for at in 0..freezes.len() {
        let (sheet, behind) = match read_one::<P>(alloc, freezes[at], rest) {
            Ok(read) => read,
            Err(stop) => return Err(stop),
        };
        let Ok(()) = sheets.push(sheet) else {
            return Err(DayStop::NoMemory);
        };
        rest = behind;
    }
    Ok((sheets, rest))
}

/// The sheet of the freeze of this line, and what is after it.
fn read_one<'a, const P: usize>(
    alloc: Global,
    freeze: u64,
    text: &'a [u8],
) -> Result<(DaySheet<P>, &'a [u8]), DayStop>
    requires places { (6 ≤ P) × (P ≤ 9) }
    ensures { MatchResult result
        (λ read. BeginsWithSheet P freeze text.now read.0 read.1.now)
        (λ stop. Stops stop ((s : FrozenSheet) (rest : List ℕ) → ¬ (BeginsWithSheet P freeze text.now s rest))) }
{
    let Some(behind) = behind_sheet_line(text, freeze) else {
        return Err(DayStop::Malformed);
    };
    let Some((sheet, rest)) = cut_sheet(behind) else {
        return Err(DayStop::Malformed);
    };
    match read_sheet::<P>(alloc, sheet) {
        Ok(values) => Ok((DaySheet { freeze, values }, rest)),
        Err(SheetStop::Malformed) => Err(DayStop::Malformed),
        Err(SheetStop::NoMemory) => Err(DayStop::NoMemory),
    }
}
