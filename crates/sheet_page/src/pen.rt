// What is written piece by piece.
ghost use Rattle.std.specs.Prelude.{◌≡◌, Ok, [], ◌∷◌, ◌≤◌, length, map};
ghost use Rattle.std.specs.List.{flat_map};
ghost use Rattle.plain_ballots.specs.declared.limits.TheConstants.{MOST_CANDIDATES};
ghost use Rattle.csv_text.specs.Csv.{behind_comma, field_text, record_text};
ghost use Rattle.page_tree.specs.Given.{given};
ghost use Rattle.page_tree.specs.Print.{attribute_text, closing, opening, shown};
ghost use Rattle.piece_text.specs.Writing.{Writes};
ghost use Rattle.sheet_reader.specs.Form.{IsPrintable, IsPrintableRow};
ghost use Rattle.sheet_minutes.specs.Minutes.{minutes_text};
ghost use Rattle.sheet_words.specs.Lines.{at_end, sentences_of};
ghost use Rattle.sheet_words.specs.Manner.{told};
ghost use Rattle.sheet_words.specs.Sentences.{outcome, sentences_at_end};
ghost use Rattle.sheet_page.specs.Cells.{cell_text};
ghost use Rattle.sheet_page.specs.JsonText.{string_text};
ghost use Rattle.sheet_page.specs.Pieces.{piece_text};
ghost use Rattle.sheet_page.specs.Prints.{Prints};
ghost use Rattle.sheet_page.specs.Values.{all_places};

use crate::cell::{Cell, amount_text, count_text};
use crate::json_text::write_string;
use crate::piece::Piece;
use byte_edge::{Failed, Sink};
use csv_text::write_field;
use meek_rule::Row;
use page_tree::{Attribute, write_end as write_end_tag, write_start, write_text};
use piece_text::write_bytes;
use sheet_minutes::write_minutes;
use sheet_reader::SheetValuesAt;
use sheet_words::{Voice, write_end, write_outcomes, write_sentences_of};

/// Writes pieces, with amounts of `P` places, to a sink one after another, up to the first failure: after it nothing more is
/// written.
#[derive(Drop)]
pub struct Pen<'s, const P: usize, K> {
    sink: &'s mut K,
    done: Result<(), Failed>,
}

impl<'s, const P: usize, K: Sink> Pen<'s, P, K> {
    /// A pen at a sink, with nothing written yet.
    pub fn new(sink: &'s mut K) -> Pen<'s, P, K>
        ensures same_sink { result.sink.ghost_name ≡ sink.entry.ghost_name }
        ensures before { result.sink.now ≡ sink.old }
        ensures well { result.done ≡ Ok (tt {0}) }
    {
        Pen { sink, done: Ok(()) }
    }

    /// Whether all was written. The sink is as the pen left it.
    pub fn end(self) -> Result<(), Failed>
        ensures left { self.exit.0.now ≡ self.entry.sink.now }
        ensures done { result ≡ self.entry.done }
    {
        self.done
    }

    /// Writes some pieces.
    pub fn write(&mut self, pieces: &[Piece<'_, P>])
        ensures { Prints K.Sink self.old self.new (flat_map (piece_text P) pieces.now) }
    {
        for piece in pieces {
            self.piece(piece);
        }
    }

    /// Writes a piece, if all before it was written.
    pub fn piece(&mut self, piece: &Piece<'_, P>)
        ensures { Prints K.Sink self.old self.new (piece_text P piece.now) }
    {
        if let Ok(()) = self.done {
            self.done = write_piece(piece, self.sink);
        }
    }

    /// Writes the start of an element with attributes.
    pub fn start(&mut self, name: &[u8], attributes: &[Attribute<'_>])
        ensures { Prints K.Sink self.old self.new (opening name.now (given attributes.now)) }
    {
        if let Ok(()) = self.done {
            self.done = write_start(name, attributes, self.sink);
        }
    }

    /// Writes the start of an element without attributes.
    pub fn open(&mut self, name: &[u8])
        ensures { Prints K.Sink self.old self.new (opening name.now []) }
    {
        self.start(name, &[]);
    }

    /// Writes the end of an element.
    pub fn close(&mut self, name: &[u8])
        ensures { Prints K.Sink self.old self.new (closing name.now) }
    {
        self.piece(&Piece::End(name));
    }

    /// Writes the values of a sheet as a text.
    pub fn minutes(&mut self, values: &SheetValuesAt<P>)
        requires places { (6 ≤ P) × (P ≤ 9) }
        requires printable { IsPrintable P values.now }
        ensures { Prints K.Sink self.old self.new (minutes_text P values.now) }
    {
        if let Ok(()) = self.done {
            self.done = write_minutes(values, self.sink);
        }
    }

    /// Writes what an iteration decided, in the manner of a voice.
    pub(crate) fn decisions<V: Voice>(&mut self, voice: &V, values: &SheetValuesAt<P>, row: &Row<P>)
        requires few { length values.now.names ≤ MOST_CANDIDATES }
        requires printable { IsPrintableRow P (length values.now.names) row.now }
        ensures { Prints K.Sink self.old self.new (flat_map (told V.manner) (sentences_of P values.now row.now)) }
    {
        if let Ok(()) = self.done {
            self.done = write_sentences_of(voice, values, row, self.sink);
        }
    }

    /// Writes why the count ended, and what became of those on whom no iteration decided.
    pub(crate) fn ending<V: Voice>(&mut self, voice: &V, values: &SheetValuesAt<P>)
        requires { IsPrintable P values.now }
        ensures { Prints K.Sink self.old self.new
            (flat_map (told V.manner) (map at_end (sentences_at_end values.now))) }
    {
        if let Ok(()) = self.done {
            self.done = write_end(voice, values, self.sink);
        }
    }

    /// Writes what became of each candidate.
    pub(crate) fn outcomes<V: Voice>(&mut self, voice: &V, values: &SheetValuesAt<P>)
        requires { IsPrintable P values.now }
        ensures { Prints K.Sink self.old self.new
            (flat_map (told V.manner) (map (outcome values.now) (all_places (length values.now.names)))) }
    {
        if let Ok(()) = self.done {
            self.done = write_outcomes(voice, values, self.sink);
        }
    }

    /// Writes a record of a spreadsheet, which has at least one field.
    pub fn record(&mut self, first: &Cell<'_, P>, others: &[Cell<'_, P>])
        ensures { Prints K.Sink self.old self.new (record_text (map (cell_text P) (first.now ∷ others.now))) }
    {
        self.field(first);
        for other in others {
            self.behind_comma(other);
        }
        self.piece(&Piece::Raw(b"\r\n"));
    }

    /// Writes a further field of a record.
    fn behind_comma(&mut self, cell: &Cell<'_, P>)
        ensures { Prints K.Sink self.old self.new (behind_comma (cell_text P cell.now)) }
    {
        self.piece(&Piece::Raw(b","));
        self.field(cell);
    }

    /// Writes a field of a record.
    fn field(&mut self, cell: &Cell<'_, P>)
        ensures { Prints K.Sink self.old self.new (field_text (cell_text P cell.now)) }
    {
        if let Ok(()) = self.done {
            self.done = write_cell_field(cell, self.sink);
        }
    }
}

fn write_piece<const P: usize, K: Sink>(piece: &Piece<'_, P>, sink: &mut K) -> Result<(), Failed>
    ensures { Writes K.written K.faults sink.old sink.new (piece_text P piece.now) result }
{
    match piece {
        Piece::Raw(bytes) => write_bytes(*bytes, sink),
        Piece::Number(n) => write_bytes(count_text(*n).bytes(), sink),
        Piece::Quoted(cell) => write_cell_string(cell, sink),
        Piece::Start(name) => write_start(*name, &[], sink),
        Piece::End(name) => write_end_tag(*name, sink),
        Piece::Text(cell) => write_cell_text(cell, sink),
        Piece::Begin(name) => write_begin(*name, sink),
        Piece::With(name, cell) => write_with(*name, cell, sink),
        Piece::Within => write_bytes(b">", sink),
    }
}

/// Writes the start of an element up to its attributes.
fn write_begin<K: Sink>(name: &[u8], sink: &mut K) -> Result<(), Failed>
    ensures { Writes K.written K.faults sink.old sink.new (60 ∷ name.now) result }
{
    write_bytes(b"<", sink)?;
    write_bytes(name, sink)
}

/// Writes an attribute after a space.
fn write_with<const P: usize, K: Sink>(
    name: &[u8],
    cell: &Cell<'_, P>,
    sink: &mut K,
) -> Result<(), Failed>
    ensures { Writes K.written K.faults sink.old sink.new
        (attribute_text (record { name = name.now; value = cell_text P cell.now })) result }
{
    write_bytes(b" ", sink)?;
    write_bytes(name, sink)?;
    write_bytes(b"=\"", sink)?;
    write_cell_text(cell, sink)?;
    write_bytes(b"\"", sink)
}

/// Writes a value as a text of a page.
fn write_cell_text<const P: usize, K: Sink>(cell: &Cell<'_, P>, sink: &mut K) -> Result<(), Failed>
    ensures { Writes K.written K.faults sink.old sink.new (shown (cell_text P cell.now)) result }
{
    match cell {
        Cell::Bytes(bytes) => write_text(*bytes, sink),
        Cell::Count(n) => write_text(count_text(*n).bytes(), sink),
        Cell::Amount(a) => write_text(amount_text(*a).bytes(), sink),
    }
}

/// Writes a value as a string of JSON.
fn write_cell_string<const P: usize, K: Sink>(
    cell: &Cell<'_, P>,
    sink: &mut K,
) -> Result<(), Failed>
    ensures { Writes K.written K.faults sink.old sink.new (string_text (cell_text P cell.now)) result }
{
    match cell {
        Cell::Bytes(bytes) => write_string(*bytes, sink),
        Cell::Count(n) => write_string(count_text(*n).bytes(), sink),
        Cell::Amount(a) => write_string(amount_text(*a).bytes(), sink),
    }
}

/// Writes a value as a field of a record.
fn write_cell_field<const P: usize, K: Sink>(cell: &Cell<'_, P>, sink: &mut K) -> Result<(), Failed>
    ensures { Writes K.written K.faults sink.old sink.new (field_text (cell_text P cell.now)) result }
{
    match cell {
        Cell::Bytes(bytes) => write_field(*bytes, sink),
        Cell::Count(n) => write_field(count_text(*n).bytes(), sink),
        Cell::Amount(a) => write_field(amount_text(*a).bytes(), sink),
    }
}
