// The records of a table with their texts.
ghost use Rattle.std.specs.Prelude.{◌≡◌, ◌<◌, [], length, min, slice_range, IfOk, IfSome, Some};
ghost use Rattle.std.specs.List.{slice_index_or};
ghost use Rattle.table_text.specs.Reading.{field_text, read_text};
ghost use Rattle.table_text.specs.Reader.{IsCellOf};
ghost use Rattle.table_text.specs.Short.{short_number};
ghost use Rattle.table_text.specs.declared.short.TheConstants.{NO_NUMBER};
ghost use Rattle.table_text.specs.declared.text_fault.TheConstants.{MAX_COUNT};
ghost use Rattle.ballot_table.specs.Imported.{byte_at, stop_at, is_of_words};
ghost use Rattle.ballot_table.specs.PlainRows.{AreNumbered};
ghost use Rattle.ballot_table.specs.Rows.{all_blank, is_empty};
ghost use Rattle.ballot_table.specs.Sheets.{row_at, text_of, Turns};
ghost use Rattle.ballot_table.specs.Texts.{trimmed};

use crate::fault::Fault;
use crate::field::Field;
use crate::{TableKind, TableStop, Text, Texts};
use plain_ballots::NoMemory;
use std::alloc::Global;
use std::marker::Model;
use table_text::{Cell, Cells, MAX_COUNT, NO_NUMBER, Records, Step, TextStop};

/// Where a record stands: its bytes and its number.
#[derive(Clone, Copy)]
pub(crate) struct Place {
    pub at: usize,
    pub end: usize,
    pub row: u32,
}

/// The records of a table, one after another, each with the texts of its fields.
#[derive(Drop)]
pub(crate) struct Sheet<'a> {
    records: Records<'a>,
    cells: Cells,
}

impl<'a> Model for Sheet<'a> {
    ghost use Rattle.std.specs.Prelude.{All};
    ghost use Rattle.table_text.specs.Reader.{IsCellOf};
    ghost use Rattle.ballot_table.specs.Sheets.{Opened, texts_at};

    ghost Value = { Opened };

    ghost view = { λ s. record {
      records = s.records;
      cells = s.cells;
      texts = texts_at s.records.bytes s.cells;
    } };

    ghost invariant = { λ s. All (IsCellOf s.records.bytes) s.cells };
}

impl<'a> Sheet<'a> {
    pub fn new(alloc: Global, bytes: &'a [u8], separator: u8) -> Sheet<'a>
        ensures { result.records.rest ≡ read_text separator bytes.entry.now }
    {
        Sheet {
            records: Records::new(bytes, separator),
            cells: Cells::new(alloc),
        }
    }

    /// The place of the next record, if there is one; its fields are then those of this sheet.
    #[inline]
    pub fn next(&mut self) -> Result<Option<Place>, TableStop>
        ensures { Turns self.old result self.new }
    {
        match self.records.next(&mut self.cells) {
            Ok(Step::End) => Ok(None),
            Ok(Step::Record { at, end, row }) => Ok(Some(Place { at, end, row })),
            Err(TextStop::Fault(fault)) => Err(TableStop::Text(fault)),
            Err(TextStop::NoMemory) => Err(TableStop::NoMemory),
        }
    }

    /// How many fields the record has.
    pub fn len(&self) -> usize
        ensures { result ≡ length self.now.texts }
    {
        self.cells.len()
    }

    /// The field at a place, from 0. It takes memory only where it has quotes.
    #[inline]
    pub fn field(&self, alloc: Global, at: usize) -> Result<Field<'_>, NoMemory>
        requires { at < length self.now.texts }
        ensures { IfOk result (λ field. text_of field ≡ slice_index_or self.now.texts at []) }
    {
        let cell = self.cells.items()[at];
        match self.records.standing(cell) {
            Some(bytes) => Ok(Field::Standing(bytes)),
            None => match unquoted(alloc, &self.records, cell) {
                Ok(field) => Ok(field),
                Err(_) => Err(NoMemory),
            },
        }
    }

    /// The short number that the field at a place is, if it is written as one.
    #[inline(always)]
    fn number(&self, at: usize) -> Option<u32>
        requires { at < length self.now.texts }
        ensures number { IfSome result (λ number. short_number (slice_index_or self.now.texts at []) ≡ Some number) }
        ensures short { IfSome result (λ number. number < NO_NUMBER) }
    {
        let number = self.cells.items()[at].number;
        if number < NO_NUMBER {
            Some(number)
        } else {
            None
        }
    }

    /// Where the fields stand, and the short numbers that they are.
    #[inline]
    pub fn cells(&self) -> &[Cell]
        ensures { AreNumbered result.now self.now.texts }
    {
        self.cells.items()
    }

    /// Whether the field at a place is blank.
    #[inline]
    fn is_blank_at(&self, alloc: Global, at: usize) -> Result<bool, NoMemory>
        requires { at < length self.now.texts }
        ensures { IfOk result (λ blank. blank ≡ is_empty (slice_index_or self.now.texts at [])) }
    {
        match self.number(at) {
            Some(number) => Ok(number == 0),
            None => {
                let field = self.field(alloc, at)?;
                Ok(is_empty(field.text()))
            }
        }
    }

    /// Whether all fields are blank.
    pub fn is_blank(&self, alloc: Global) -> Result<bool, NoMemory>
        ensures { IfOk result (λ blank. blank ≡ all_blank self.now.texts) }
    {
        for at in 0..self.len() {
            if !self.is_blank_at(alloc, at)? {
                return Ok(false);
            }
        }
        Ok(true)
    }

    /// Copies of the texts of all fields.
    pub fn texts(&self, alloc: Global) -> Result<Texts, NoMemory>
        ensures { IfOk result (λ texts. texts ≡ self.now.texts) }
    {
        let mut texts = Texts::new(alloc);
        for at in 0..self.len() {
            texts.push(self.text(alloc, at)?)?;
        }
        Ok(texts)
    }

    // A copy of the text of the field at a place, from 0.
    fn text(&self, alloc: Global, at: usize) -> Result<Text, NoMemory>
        requires { at < length self.now.texts }
        ensures { IfOk result (λ text. text ≡ slice_index_or self.now.texts at []) }
    {
        let field = self.field(alloc, at)?;
        Text::new(alloc, field.text())
    }

    /// A fault of the record that is at a place, at its byte.
    pub fn stop_at(&self, place: Place, fault: Fault) -> TableStop
        ensures { result ≡ stop_at (row_at self.now place) fault }
    {
        if is_of_words(fault.kind) {
            return TableStop::Word {
                kind: fault.kind,
                place: fault.place,
            };
        }
        TableStop::Record {
            kind: fault.kind,
            at: self.byte_at(place, fault.place),
            row: place.row,
            column: column(fault.place),
        }
    }

    /// The byte at which a field begins, or where the record ends after its last.
    fn byte_at(&self, place: Place, column: usize) -> usize
        ensures { result ≡ byte_at (row_at self.now place) column }
    {
        match self.cells.items().get(column.saturating_sub(1)) {
            Some(cell) => cell.at,
            None => place.end,
        }
    }
}

fn is_of_words(kind: TableKind) -> bool
    ensures { result ≡ is_of_words kind }
{
    match kind {
        TableKind::NoColumn | TableKind::BadWithdrawn => true,
        _ => false,
    }
}

fn column(place: usize) -> u32
    ensures { result ≡ min place MAX_COUNT }
{
    if place < MAX_COUNT as usize {
        place as u32
    } else {
        MAX_COUNT
    }
}

fn is_empty(text: &[u8]) -> bool
    ensures { result ≡ is_empty text.now }
{
    text.is_empty()
}

// A field with quotes.
fn unquoted<'f>(alloc: Global, records: &Records<'_>, cell: Cell) -> Result<Field<'f>, NoMemory>
    requires { IsCellOf records.now.bytes cell }
    ensures { IfOk result (λ field. text_of field ≡ trimmed (field_text (slice_range records.now.bytes cell.at cell.stop))) }
{
    let mut bytes = Vec::new(alloc);
    match records.text(cell, &mut bytes) {
        Ok(()) => Ok(Field::Unquoted(bytes)),
        Err(_) => Err(NoMemory),
    }
}
