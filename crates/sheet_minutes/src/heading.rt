// What is at the top.
ghost use Rattle.piece_text.specs.Writing.{Writes};
ghost use Rattle.sheet_minutes.specs.Minutes.{heading};

use crate::piece::Piece;
use crate::pieces::write_pieces;
use byte_edge::{Failed, Sink};
use sheet_reader::SheetValuesAt;

/// Writes the title and the numbers of seats and ballots.
pub(crate) fn write_heading<const P: usize, K: Sink>(
    values: &SheetValuesAt<P>,
    sink: &mut K,
) -> Result<(), Failed>
    ensures { Writes K.written K.faults sink.old sink.new (heading values.now) result }
{
    write_pieces(
        &[
            Piece::Plain(values.title.bytes()),
            Piece::Raw(b"\nSeats: "),
            Piece::Count(values.seats as u64),
            Piece::Raw(b". Ballots: "),
            Piece::Count(values.ballots),
            Piece::Raw(b".\n"),
        ],
        sink,
    )
}
