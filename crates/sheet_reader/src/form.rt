// Whether a text has the form of a sheet.
ghost use Rattle.std.specs.Prelude.{◌≤◌, MatchResult};
ghost use Rattle.sheet_reader.specs.Form.{HasForm};
ghost use Rattle.sheet_reader.specs.Refusal.{Stops};
ghost use Rattle.sheet_reader.specs.Values.{SheetList};

use crate::SheetStop;
use crate::row_sink::KeepNone;
use crate::sheet_parts::read_parts;
use std::alloc::Global;

/// Whether a text is the sheet of any values at `P` places. Iterations are read one after another into the
/// same row, so a sheet of many takes no more memory than a sheet of one.
pub fn check_form<const P: usize>(alloc: Global, bytes: &[u8]) -> Result<(), SheetStop>
    requires places { (6 ≤ P) × (P ≤ 9) }
    ensures { MatchResult result (λ _. (values : SheetList) × HasForm P bytes.now values)
        (λ stop. Stops stop ((values : SheetList) → ¬ (HasForm P bytes.now values))) }
{
    let _parts = read_parts::<P, KeepNone>(alloc, bytes, &mut KeepNone)?;
    Ok(())
}
