// A sheet as a whole.
ghost use Rattle.std.specs.Prelude.{◌≤◌};
ghost use Rattle.sheet_reader.specs.Reading.{Reads};

use crate::sheet_parts::read_parts;
use crate::{RowList, SheetStop, SheetValuesAt};
use std::alloc::Global;

/// The values of which a text is the sheet at `P` places.
pub fn read_sheet<const P: usize>(
    alloc: Global,
    bytes: &[u8],
) -> Result<SheetValuesAt<P>, SheetStop>
    requires places { (6 ≤ P) × (P ≤ 9) }
    ensures { Reads P bytes.now result }
{
    let mut rows = RowList::<P>::new(alloc);
    let parts = read_parts::<P, RowList<P>>(alloc, bytes, &mut rows)?;
    Ok(SheetValuesAt {
        title: parts.title,
        seats: parts.seats,
        ballots: parts.ballots as u64,
        names: parts.names,
        rows,
        last: parts.last,
    })
}
