// One record.
ghost use Rattle.std.specs.Prelude.{◌≡◌, ◌≤◌, length, All, IfOk, IfErr};
ghost use Rattle.table_text.specs.Reading.{next_count};
ghost use Rattle.table_text.specs.Fronts.{AreFronts};
ghost use Rattle.table_text.specs.Reader.{IsCellOf, GoesOn, EndsAt, IsEnded, IsBroken};

use crate::field::{Flaw, any_cell};
use crate::fronts::Fronts;
use crate::short::stands_apart;
use crate::{Cells, MAX_COUNT, NoMemory, TextFault, TextStop};

/// The place after the record that begins at a place. The places of its fields are then in `cells`.
#[inline]
pub(crate) fn record_end(
    bytes: &[u8],
    separator: u8,
    row: u32,
    start: usize,
    fronts: &mut Fronts,
    cells: &mut Cells,
) -> Result<usize, TextStop>
    requires inside { start ≤ length bytes.now }
    requires fronts { AreFronts bytes.now fronts.old }
    ensures fronts { AreFronts bytes.now fronts.new }
    ensures after { IfOk result (λ end. start ≤ end) }
    ensures inside { IfOk result (λ end. end ≤ length bytes.now) }
    ensures cells { All (IsCellOf bytes.now) cells.new }
    ensures ended { IfOk result (IsEnded separator bytes.now) }
    ensures record { IfOk result (EndsAt separator bytes.now row start cells.new) }
    ensures broken { IfErr result (IsBroken separator bytes.now row start) }
{
    cells.clear();
    let mut at = start;
    loop {
        at = short_cells(bytes, separator, at, fronts, cells)?;
        let cell = match any_cell(bytes, separator, at) {
            Ok(cell) => cell,
            Err(flaw) => return Err(TextStop::Fault(fault(flaw, row, cells.len()))),
        };
        cells.push(cell)?;
        if cell.stop == bytes.len() || bytes[cell.stop] != separator {
            return Ok(cell.stop);
        }
        at = cell.stop + 1;
    }
}

/// Puts the places of the next fields after the others, as long as they are short numbers with a separator after them, and
/// gives the place of the field after them.
fn short_cells(
    bytes: &[u8],
    separator: u8,
    start: usize,
    fronts: &mut Fronts,
    cells: &mut Cells,
) -> Result<usize, NoMemory>
    requires inside { start ≤ length bytes.now }
    requires fronts { AreFronts bytes.now fronts.old }
    requires cells { All (IsCellOf bytes.now) cells.old }
    ensures after { IfOk result (λ next. start ≤ next) }
    ensures inside { IfOk result (λ next. next ≤ length bytes.now) }
    ensures fronts { AreFronts bytes.now fronts.new }
    ensures cells { All (IsCellOf bytes.now) cells.new }
    ensures on { IfOk result (GoesOn separator bytes.now cells.old cells.new start) }
{
    let mut at = start;
    if !stands_apart(separator) {
        return Ok(at);
    }
    while fronts.reach(bytes, at) {
        let Some(cell) = fronts.short_cell(bytes, separator, at) else {
            return Ok(at);
        };
        cells.push(cell)?;
        at = cell.stop + 1;
    }
    Ok(at)
}

// The fault of a field after so many others of its record.
fn fault(flaw: Flaw, row: u32, fields: usize) -> TextFault
    ensures { result ≡ record { kind = flaw.kind; at = flaw.at; row = row; column = next_count fields } }
{
    TextFault {
        kind: flaw.kind,
        at: flaw.at,
        row,
        column: next_count(fields),
    }
}

/// One more, up to the greatest number that a fault names.
pub(crate) fn next_count(n: usize) -> u32
    ensures { result ≡ next_count n }
{
    if n < MAX_COUNT as usize {
        n as u32 + 1
    } else {
        MAX_COUNT
    }
}
