// What is in the end of a day, on a page.
ghost use Rattle.std.specs.Prelude.{◌≡◌};
ghost use Rattle.page_tree.specs.Print.{printed};
ghost use Rattle.sheet_page.specs.Prints.{Prints};
ghost use Rattle.sheet_page.specs.Trees.{print_each};
ghost use Rattle.day_page.specs.EndPart.{batch_item, end_counts, end_list, end_part, end_title, fate, stands_part, struck_item};

use byte_edge::Sink;
use day_text::{BatchEnd, DayEnd};
use sheet_page::{Cell, Pen, Piece};

/// Writes the part of a page that says what is in the end.
pub(crate) fn write_end<const P: usize, K: Sink>(pen: &mut Pen<'_, P, K>, end: &DayEnd)
    ensures { Prints K.Sink pen.old pen.new (printed (end_part end.now)) }
{
    write_stands(pen, end.batches.as_slice(), end.struck.as_slice());
}

fn write_stands<const P: usize, K: Sink>(
    pen: &mut Pen<'_, P, K>,
    batches: &[BatchEnd],
    struck: &[u32],
)
    ensures { Prints K.Sink pen.old pen.new (printed (stands_part batches.now struck.now)) }
{
    pen.open(b"section");
    write_title(pen);
    write_counts(pen, batches.len() as u64, struck.len() as u64);
    write_list(pen, batches, struck);
    pen.close(b"section");
}

fn write_title<const P: usize, K: Sink>(pen: &mut Pen<'_, P, K>)
    ensures { Prints K.Sink pen.old pen.new (printed end_title) }
{
    pen.write(&[
        Piece::Start(b"h2"),
        Piece::Text(Cell::Bytes(b"What stands in the end")),
        Piece::End(b"h2"),
    ]);
}

/// How many batches were entered, and how many candidates were struck.
fn write_counts<const P: usize, K: Sink>(pen: &mut Pen<'_, P, K>, batches: u64, struck: u64)
    ensures { Prints K.Sink pen.old pen.new (printed (end_counts batches struck)) }
{
    pen.write(&[
        Piece::Start(b"p"),
        Piece::Text(Cell::Bytes(b"Batches that were entered: ")),
        Piece::Text(Cell::Count(batches)),
        Piece::Text(Cell::Bytes(b". Candidates who were struck: ")),
        Piece::Text(Cell::Count(struck)),
        Piece::Text(Cell::Bytes(b".")),
        Piece::End(b"p"),
    ]);
}

fn write_list<const P: usize, K: Sink>(
    pen: &mut Pen<'_, P, K>,
    batches: &[BatchEnd],
    struck: &[u32],
)
    ensures { Prints K.Sink pen.old pen.new (printed (end_list batches.now struck.now)) }
{
    pen.open(b"ul");
    write_batches(pen, batches);
    write_struck(pen, struck);
    pen.close(b"ul");
}

/// An item for each batch that was entered.
fn write_batches<const P: usize, K: Sink>(pen: &mut Pen<'_, P, K>, batches: &[BatchEnd])
    ensures { Prints K.Sink pen.old pen.new (print_each batch_item batches.now) }
{
    for batch in batches {
        write_batch(pen, *batch);
    }
}

fn write_batch<const P: usize, K: Sink>(pen: &mut Pen<'_, P, K>, batch: BatchEnd)
    ensures { Prints K.Sink pen.old pen.new (printed (batch_item batch)) }
{
    pen.write(&[
        Piece::Start(b"li"),
        Piece::Text(Cell::Bytes(b"Batch ")),
        Piece::Text(Cell::Count(batch.number as u64)),
        Piece::Text(Cell::Bytes(fate(batch.stands))),
        Piece::Text(Cell::Count(batch.revision as u64)),
        Piece::Text(Cell::Bytes(b".")),
        Piece::End(b"li"),
    ]);
}

/// What became of a batch.
pub(crate) fn fate(stands: bool) -> &'static [u8]
    ensures { result.now ≡ fate stands }
{
    if stands {
        b" stands at revision "
    } else {
        b" was withdrawn, at revision "
    }
}

/// An item for each struck candidate.
fn write_struck<const P: usize, K: Sink>(pen: &mut Pen<'_, P, K>, struck: &[u32])
    ensures { Prints K.Sink pen.old pen.new (print_each struck_item struck.now) }
{
    for candidate in struck {
        write_struck_one(pen, *candidate);
    }
}

fn write_struck_one<const P: usize, K: Sink>(pen: &mut Pen<'_, P, K>, candidate: u32)
    ensures { Prints K.Sink pen.old pen.new (printed (struck_item candidate)) }
{
    pen.write(&[
        Piece::Start(b"li"),
        Piece::Text(Cell::Bytes(b"Candidate ")),
        Piece::Text(Cell::Count(candidate as u64)),
        Piece::Text(Cell::Bytes(b" was struck.")),
        Piece::End(b"li"),
    ]);
}
