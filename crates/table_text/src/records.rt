// The records of a text.
ghost use Rattle.std.specs.Prelude.{◌≡◌, ◌≢◌, ◌≤◌, ◌↔◌, [], length, slice_range, true, All, IfOk, IfSome, IsNone, OnOk, OnErr, Ok, Err};
ghost use Rattle.table_text.specs.Fronts.{AreFronts};
ghost use Rattle.table_text.specs.Reading.{begins_with_quote, field_text, read_text};
ghost use Rattle.table_text.specs.Reader.{IsCellOf, IsEnded, LineEnds, GivesFrom, Gives};

use crate::fronts::Fronts;
use crate::mark::FEED;
use crate::record::{next_count, record_end};
use crate::text::{put_text, without_quotes};
use crate::{Cell, Cells, NoMemory, Step, TextFault, TextKind, TextStop};
use std::marker::Model;

/// The records of a text that are still to come, one after another.
#[derive(Drop)]
pub struct Records<'a> {
    bytes: &'a [u8],
    separator: u8,
    at: usize,
    row: u32,
    fronts: Fronts,
}

impl<'a> Model for Records<'a> {
    ghost use Rattle.std.specs.Prelude.{◌≤◌, length};
    ghost use Rattle.table_text.specs.Fronts.{AreFronts};
    ghost use Rattle.table_text.specs.Reading.{left};
    ghost use Rattle.table_text.specs.Reader.{Reader};

    ghost Value = { Reader };

    ghost view = { λ r. record { bytes = r.bytes.now; rest = left r.separator r.bytes.now r.row r.at } };

    ghost invariant = { λ r. (r.at ≤ length r.bytes.now) × (1 ≤ r.row) × AreFronts r.bytes.now r.fronts };
}

// What comes from a place on, with the place and the row of what is to come after it.
#[inline(always)]
fn next_from(
    bytes: &[u8],
    separator: u8,
    row: u32,
    at: usize,
    fronts: &mut Fronts,
    cells: &mut Cells,
) -> Result<(Step, usize, u32), TextStop>
    requires inside { at ≤ length bytes.now }
    requires row { 1 ≤ row }
    requires fronts { AreFronts bytes.now fronts.old }
    ensures fronts { AreFronts bytes.now fronts.new }
    ensures inside { IfOk result (λ found. found.1 ≤ length bytes.now) }
    ensures row { IfOk result (λ found. 1 ≤ found.2) }
    ensures cells { All (IsCellOf bytes.now) cells.new }
    ensures gives { GivesFrom separator bytes.now row at result cells.new }
{
    if at == bytes.len() {
        cells.clear();
        return at_end(row, at);
    }
    let end = record_end(bytes, separator, row, at, fronts, cells)?;
    let rest = behind_line(bytes, separator, end);
    if end == at {
        return Err(refused(TextKind::EmptyLine, at, row));
    }
    Ok((
        Step::Record { at, end, row },
        rest,
        next_count(row as usize),
    ))
}

// The text ends at a record's place.
fn at_end(row: u32, at: usize) -> Result<(Step, usize, u32), TextStop>
    ensures wanted { row ≡ 1 → result ≡ Err (TextStop.Fault (record { kind = TextKind.Ended; at = at; row = row; column = 1 })) }
    ensures done { row ≢ 1 → result ≡ Ok (Step.End, at, row) }
{
    if row == 1 {
        return Err(refused(TextKind::Ended, at, row));
    }
    Ok((Step::End, at, row))
}

fn refused(kind: TextKind, at: usize, row: u32) -> TextStop
    ensures { result ≡ TextStop.Fault (record { kind = kind; at = at; row = row; column = 1 }) }
{
    TextStop::Fault(TextFault {
        kind,
        at,
        row,
        column: 1,
    })
}

// The place after the line end of a record that ends at a place.
#[inline(always)]
fn behind_line(bytes: &[u8], separator: u8, end: usize) -> usize
    requires inside { end ≤ length bytes.now }
    requires ended { IsEnded separator bytes.now end }
    ensures inside { result ≤ length bytes.now }
    ensures over { LineEnds separator bytes.now end result }
{
    if end == bytes.len() {
        end
    } else if bytes[end] == FEED {
        end + 1
    } else {
        end + 2
    }
}

impl<'a> Records<'a> {
    /// The records of a text, after its byte order mark.
    pub fn new(bytes: &'a [u8], separator: u8) -> Self
        ensures { result ≡ record { bytes = bytes.entry.now; rest = read_text separator bytes.entry.now } }
    {
        let at = if bytes.starts_with(&[0xEF, 0xBB, 0xBF]) {
            3
        } else {
            0
        };
        Records {
            bytes,
            separator,
            at,
            row: 1,
            fronts: Fronts::new(),
        }
    }

    /// The next record, with the places of its fields in `cells`. An end and a fault are answered again.
    #[inline]
    pub fn next(&mut self, cells: &mut Cells) -> Result<Step, TextStop>
        ensures bytes { self.new.bytes ≡ self.old.bytes }
        ensures cells { All (IsCellOf self.old.bytes) cells.new }
        ensures gives { Gives self.old result cells.new self.new }
    {
        let (step, at, row) = next_from(
            self.bytes,
            self.separator,
            self.row,
            self.at,
            &mut self.fronts,
            cells,
        )?;
        self.at = at;
        self.row = row;
        Ok(step)
    }

    /// The text of a field that is in the bytes as it is: one without quotes, which is its own text.
    #[inline]
    pub fn standing(&self, cell: Cell) -> Option<&'a [u8]>
        requires { IsCellOf self.now.bytes cell }
        ensures text { IfSome result (λ text. text.now ≡ field_text (slice_range self.now.bytes cell.at cell.stop)) }
        ensures quoted { IsNone result ↔ (begins_with_quote (slice_range self.now.bytes cell.at cell.stop) ≡ true) }
    {
        without_quotes(&self.bytes[cell.at..cell.stop])
    }

    /// The text of a field: its bytes without its quotes, with one quote for each two. It is then all that is
    /// in `into`, which is empty where memory is wanted.
    pub fn text(&self, cell: Cell, into: &mut Vec<u8>) -> Result<(), NoMemory>
        requires { IsCellOf self.now.bytes cell }
        ensures ok { OnOk result (into.new.items ≡ field_text (slice_range self.now.bytes cell.at cell.stop)) }
        ensures err { OnErr result (into.new.items ≡ []) }
    {
        match put_text(&self.bytes[cell.at..cell.stop], into) {
            Ok(()) => Ok(()),
            Err(stop) => {
                into.clear();
                Err(stop)
            }
        }
    }
}
