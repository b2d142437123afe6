// The part of all rounds.
ghost use Rattle.std.specs.Prelude.{[]};
ghost use Rattle.page_tree.specs.Print.{printed};
ghost use Rattle.sheet_reader.specs.Form.{IsPrintable};
ghost use Rattle.sheet_page.specs.Html.{meaning, rounds_part, rounds_title, words_explained};
ghost use Rattle.sheet_page.specs.Prints.{Prints};
ghost use Rattle.sheet_page.specs.Trees.{all};

use crate::PartNames;
use crate::cell::Cell;
use crate::pen::Pen;
use crate::piece::Piece;
use crate::table::write_frame;
use byte_edge::Sink;
use sheet_reader::SheetValuesAt;

/// The part of a page that has the table of rounds.
pub(crate) fn write_rounds<const P: usize, K: Sink>(
    pen: &mut Pen<'_, P, K>,
    names: PartNames,
    values: &SheetValuesAt<P>,
)
    requires printable { IsPrintable P values.now }
    ensures { Prints K.Sink pen.old pen.new (printed (rounds_part names P values.now)) }
{
    pen.open(b"section");
    write_title(pen);
    write_frame(pen, names, values);
    write_words(pen);
    pen.close(b"section");
}

fn write_title<const P: usize, K: Sink>(pen: &mut Pen<'_, P, K>)
    ensures { Prints K.Sink pen.old pen.new (printed rounds_title) }
{
    pen.write(&[
        Piece::Start(b"h2"),
        Piece::Text(Cell::Bytes(b"Votes at the end of each round")),
        Piece::End(b"h2"),
    ]);
}

/// The words of a count that a reader may not know.
fn write_words<const P: usize, K: Sink>(pen: &mut Pen<'_, P, K>)
    ensures { Prints K.Sink pen.old pen.new (printed words_explained) }
{
    pen.open(b"dl");
    write_meaning(pen, b"Hopeful", b"neither elected nor defeated so far.");
    write_meaning(
        pen,
        b"Keep value",
        b"the part of each vote which reaches a candidate that the candidate keeps. The rest goes on to the next on the ballot. It is 1 for the hopeful; for the elected it is changed from one iteration to the next, down or up, so that each keeps about a quota.",
    );
    write_meaning(
        pen,
        b"On no candidate",
        b"the votes that nobody keeps, since their ballots rank no further candidate who could.",
    );
    write_meaning(
        pen,
        b"In the iterations",
        b"each candidate by its number, with its vote; one of whom nothing else is said is hopeful and keeps 1. Who is defeated or withdrawn and has no vote is left out.",
    );
    pen.close(b"dl");
}

/// A word, and what it means.
fn write_meaning<'w, const P: usize, K: Sink>(
    pen: &mut Pen<'_, P, K>,
    word: &'w [u8],
    meant: &'w [u8],
)
    ensures { Prints K.Sink pen.old pen.new (printed (all (meaning word.now meant.now []))) }
{
    pen.write(&[
        Piece::Start(b"dt"),
        Piece::Text(Cell::Bytes(word)),
        Piece::End(b"dt"),
        Piece::Start(b"dd"),
        Piece::Text(Cell::Bytes(meant)),
        Piece::End(b"dd"),
    ]);
}
