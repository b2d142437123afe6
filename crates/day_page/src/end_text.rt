// What is in the end of a day, as lines of a text.
ghost use Rattle.std.specs.Prelude.{◌≡◌};
ghost use Rattle.std.specs.List.{flat_map};
ghost use Rattle.sheet_page.specs.Prints.{Prints};
ghost use Rattle.day_page.specs.DayMinutes.{batch_line, counts_text, end_text, stands_text, struck_line};

use crate::end_part::fate;
use byte_edge::Sink;
use day_text::{BatchEnd, DayEnd};
use sheet_page::{Pen, Piece};

/// Writes what is in the end.
pub(crate) fn write_end<const P: usize, K: Sink>(pen: &mut Pen<'_, P, K>, end: &DayEnd)
    ensures { Prints K.Sink pen.old pen.new (end_text end.now) }
{
    write_stands(pen, end.batches.as_slice(), end.struck.as_slice());
}

fn write_stands<const P: usize, K: Sink>(
    pen: &mut Pen<'_, P, K>,
    batches: &[BatchEnd],
    struck: &[u32],
)
    ensures { Prints K.Sink pen.old pen.new (stands_text batches.now struck.now) }
{
    write_counts(pen, batches.len() as u64, struck.len() as u64);
    write_batches(pen, batches);
    write_struck(pen, struck);
}

/// How many batches were entered, and how many candidates were struck.
fn write_counts<const P: usize, K: Sink>(pen: &mut Pen<'_, P, K>, batches: u64, struck: u64)
    ensures { Prints K.Sink pen.old pen.new (counts_text batches struck) }
{
    pen.write(&[
        Piece::Raw(b"\nWhat stands in the end\nBatches that were entered: "),
        Piece::Number(batches),
        Piece::Raw(b". Candidates who were struck: "),
        Piece::Number(struck),
        Piece::Raw(b".\n"),
    ]);
}

/// A line for each batch that was entered.
fn write_batches<const P: usize, K: Sink>(pen: &mut Pen<'_, P, K>, batches: &[BatchEnd])
    ensures { Prints K.Sink pen.old pen.new (flat_map batch_line batches.now) }
{
    for batch in batches {
        write_batch(pen, *batch);
    }
}

fn write_batch<const P: usize, K: Sink>(pen: &mut Pen<'_, P, K>, batch: BatchEnd)
    ensures { Prints K.Sink pen.old pen.new (batch_line batch) }
{
    pen.write(&[
        Piece::Raw(b"Batch "),
        Piece::Number(batch.number as u64),
        Piece::Raw(fate(batch.stands)),
        Piece::Number(batch.revision as u64),
        Piece::Raw(b".\n"),
    ]);
}

/// A line for each struck candidate.
fn write_struck<const P: usize, K: Sink>(pen: &mut Pen<'_, P, K>, struck: &[u32])
    ensures { Prints K.Sink pen.old pen.new (flat_map struck_line struck.now) }
{
    for candidate in struck {
        write_candidate(pen, *candidate);
    }
}

fn write_candidate<const P: usize, K: Sink>(pen: &mut Pen<'_, P, K>, candidate: u32)
    ensures { Prints K.Sink pen.old pen.new (struck_line candidate) }
{
    pen.write(&[
        Piece::Raw(b"Candidate "),
        Piece::Number(candidate as u64),
        Piece::Raw(b" was struck.\n"),
    ]);
}
