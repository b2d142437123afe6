// Texts in columns.
ghost use Rattle.std.specs.Prelude.{◌≡◌, decimal, replicate};
ghost use Rattle.sheet_minutes.specs.Columns.{at_right};
ghost use Rattle.sheet_page.specs.Prints.{Prints};
ghost use Rattle.day_page.specs.DayMinutes.{at_left};

use byte_edge::Sink;
use line_text::Line;
use sheet_page::{Pen, Piece};

/// Writes a text at the left of so many columns.
pub(crate) fn write_left<const P: usize, K: Sink>(
    pen: &mut Pen<'_, P, K>,
    width: usize,
    text: &[u8],
)
    ensures { Prints K.Sink pen.old pen.new (at_left width text.now) }
{
    pen.piece(&Piece::Raw(text));
    write_spaces(pen, width.saturating_sub(text.len()));
}

/// Writes a number at the right of so many columns.
pub(crate) fn write_right<const P: usize, K: Sink>(
    pen: &mut Pen<'_, P, K>,
    width: usize,
    number: u64,
)
    ensures { Prints K.Sink pen.old pen.new (at_right width (decimal number)) }
{
    let digits = count_text(number);
    write_right_text(pen, width, digits.bytes());
}

fn write_right_text<const P: usize, K: Sink>(pen: &mut Pen<'_, P, K>, width: usize, text: &[u8])
    ensures { Prints K.Sink pen.old pen.new (at_right width text.now) }
{
    write_spaces(pen, width.saturating_sub(text.len()));
    pen.piece(&Piece::Raw(text));
}

fn write_spaces<const P: usize, K: Sink>(pen: &mut Pen<'_, P, K>, count: usize)
    ensures { Prints K.Sink pen.old pen.new (replicate count 32) }
{
    for _ in 0..count {
        pen.piece(&Piece::Raw(b" "));
    }
}

#[tactic(auto, using(line_text::proofs::Lengths::lengths))]
fn count_text(n: u64) -> Line
    ensures { result ≡ decimal n }
{
    let mut line = Line::new();
    line.push_count(n);
    line
}
