// What a count decided, on a page.
ghost use Rattle.std.specs.Prelude.{◌+◌, ◌<◌, length, map};
ghost use Rattle.page_tree.specs.Print.{printed};
ghost use Rattle.sheet_reader.specs.Form.{IsPrintable};
ghost use Rattle.sheet_words.specs.Lines.{at_end, sentences_of};
ghost use Rattle.sheet_words.specs.Sentences.{outcome, sentences_at_end};
ghost use Rattle.sheet_minutes.specs.Rounds.{row_at};
ghost use Rattle.sheet_page.specs.Prints.{Prints};
ghost use Rattle.sheet_page.specs.Told.{end_list, item, outcome_list, result_part, result_title, round_sentences, sentences_at};
ghost use Rattle.sheet_page.specs.Trees.{each, print_each};
ghost use Rattle.sheet_page.specs.Values.{all_places};

use crate::cell::Cell;
use crate::items::Items;
use crate::pen::Pen;
use crate::piece::Piece;
use crate::stretches::first_of;
use byte_edge::Sink;
use sheet_reader::SheetValuesAt;

/// Writes what the iterations of the round that ends at a place decided.
pub(crate) fn write_round_sentences<const P: usize, K: Sink>(
    pen: &mut Pen<'_, P, K>,
    values: &SheetValuesAt<P>,
    last: usize,
)
    requires printable { IsPrintable P values.now }
    requires place { last < length values.now.rows }
    ensures { Prints K.Sink pen.old pen.new (printed (round_sentences P values.now last)) }
{
    pen.open(b"ul");
    write_sentences(pen, values, last);
    pen.close(b"ul");
}

/// The sentences of the round that ends at a place, from its first iteration on.
fn write_sentences<const P: usize, K: Sink>(
    pen: &mut Pen<'_, P, K>,
    values: &SheetValuesAt<P>,
    last: usize,
)
    requires printable { IsPrintable P values.now }
    requires place { last < length values.now.rows }
    ensures { Prints K.Sink pen.old pen.new (print_each (sentences_at P values.now last) (all_places (last + 1))) }
{
    let first = first_of(values.rows.items(), last);
    for i in first..last + 1 {
        write_sentences_at(pen, values, i);
    }
}

/// What the iteration at a place decided.
fn write_sentences_at<const P: usize, K: Sink>(
    pen: &mut Pen<'_, P, K>,
    values: &SheetValuesAt<P>,
    i: usize,
)
    requires printable { IsPrintable P values.now }
    requires place { i < length values.now.rows }
    ensures { Prints K.Sink pen.old pen.new
        (printed (each item (sentences_of P values.now (row_at values.now.rows i)))) }
{
    pen.decisions(&Items, values, values.rows.get(i));
}

/// Writes the part of a page that says how the count ended, and what became of each candidate.
pub(crate) fn write_result<const P: usize, K: Sink>(
    pen: &mut Pen<'_, P, K>,
    values: &SheetValuesAt<P>,
)
    requires printable { IsPrintable P values.now }
    ensures { Prints K.Sink pen.old pen.new (printed (result_part values.now)) }
{
    pen.open(b"section");
    write_title(pen);
    write_ending(pen, values);
    write_outcomes(pen, values);
    pen.close(b"section");
}

fn write_title<const P: usize, K: Sink>(pen: &mut Pen<'_, P, K>)
    ensures { Prints K.Sink pen.old pen.new (printed result_title) }
{
    pen.write(&[
        Piece::Start(b"h2"),
        Piece::Text(Cell::Bytes(b"Result")),
        Piece::End(b"h2"),
    ]);
}

/// Why the count ended, and what became of those on whom no iteration decided.
fn write_ending<const P: usize, K: Sink>(pen: &mut Pen<'_, P, K>, values: &SheetValuesAt<P>)
    requires printable { IsPrintable P values.now }
    ensures { Prints K.Sink pen.old pen.new (printed (end_list values.now)) }
{
    pen.open(b"ul");
    pen.ending(&Items, values);
    pen.close(b"ul");
}

/// What became of each candidate.
fn write_outcomes<const P: usize, K: Sink>(pen: &mut Pen<'_, P, K>, values: &SheetValuesAt<P>)
    requires printable { IsPrintable P values.now }
    ensures { Prints K.Sink pen.old pen.new (printed (outcome_list values.now)) }
{
    pen.open(b"ul");
    pen.outcomes(&Items, values);
    pen.close(b"ul");
}
