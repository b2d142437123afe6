// Pieces, written one after another.
ghost use Rattle.std.specs.Prelude.{◌≡◌, decimal, replicate};
ghost use Rattle.std.specs.List.{flat_map};
ghost use Rattle.fixed_place.specs.Text.{text_of};
ghost use Rattle.piece_text.specs.Writing.{Writes};
ghost use Rattle.sheet_minutes.specs.Columns.{at_right};
ghost use Rattle.sheet_minutes.specs.Pieces.{piece_text};

use crate::piece::Piece;
use crate::plain::write_plain;
use byte_edge::{Failed, Sink};
use fixed_place::Amount;
use line_text::Line;
use piece_text::write_bytes;

pub(crate) fn write_pieces<K: Sink>(pieces: &[Piece<'_>], sink: &mut K) -> Result<(), Failed>
    ensures { Writes K.written K.faults sink.old sink.new (flat_map piece_text pieces.now) result }
{
    for piece in pieces {
        write_piece(piece, sink)?;
    }
    Ok(())
}

pub(crate) fn write_piece<K: Sink>(piece: &Piece<'_>, sink: &mut K) -> Result<(), Failed>
    ensures { Writes K.written K.faults sink.old sink.new (piece_text piece.now) result }
{
    match piece {
        Piece::Raw(bytes) => write_bytes(*bytes, sink),
        Piece::Plain(text) => write_plain(*text, sink),
        Piece::Count(n) => write_bytes(count_text(*n).bytes(), sink),
        Piece::RightCount(width, n) => write_right(*width, count_text(*n).bytes(), sink),
    }
}

/// Writes votes at the right of so many columns.
pub(crate) fn write_right_votes<const P: usize, K: Sink>(
    width: usize,
    votes: Amount<P>,
    sink: &mut K,
) -> Result<(), Failed>
    ensures { Writes K.written K.faults sink.old sink.new (at_right width (text_of P votes.entry)) result }
{
    write_right(width, votes_text(votes).bytes(), sink)
}

/// Writes a text at the right of so many columns.
fn write_right<K: Sink>(width: usize, text: &[u8], sink: &mut K) -> Result<(), Failed>
    ensures { Writes K.written K.faults sink.old sink.new (at_right width text.now) result }
{
    write_spaces(width.saturating_sub(text.len()), sink)?;
    write_bytes(text, sink)
}

fn write_spaces<K: Sink>(count: usize, sink: &mut K) -> Result<(), Failed>
    ensures { Writes K.written K.faults sink.old sink.new (replicate count 32) result }
{
    for _ in 0..count {
        write_bytes(b" ", sink)?;
    }
    Ok(())
}

#[tactic(auto, using(line_text::proofs::Lengths::lengths))]
fn count_text(n: u64) -> Line
    ensures { result ≡ decimal n }
{
    let mut line = Line::new();
    line.push_count(n);
    line
}

#[tactic(auto, using(line_text::proofs::Lengths::lengths))]
pub(crate) fn votes_text<const P: usize>(a: Amount<P>) -> Line
    ensures { result ≡ text_of P a.entry }
{
    let _units = a.units();
    let mut line = Line::new();
    line.push_amount(a);
    line
}
