// Pieces of ballot lines.
ghost use Rattle.std.specs.Prelude.{◌≡◌, ℕ, ◌<◌, ◌≤◌, List, All, IfOk, length};
ghost use Rattle.plain_ballots.specs.declared.limits.TheConstants.{MOST_BALLOTS, MOST_CANDIDATES};
ghost use Rattle.ballot_pieces.specs.Found.{IsOf, IsRead, IsReadOf};

use crate::at_count::AtCount;
use crate::found::Found;
use blt_reader::LineBounds;
use std::alloc::{AllocError, Global};
use std::thread;
use std::thread::Threads;

/// Where a worker begins, after what place the counts are another's, and what was read.
#[derive(Drop)]
pub(crate) struct Piece<'a> {
    pub from: AtCount<'a>,
    pub place: usize,
    pub found: Option<Found<'a>>,
}

/// Cuts what is after a count into at most so many pieces, the last one first: each is of so many bytes,
/// and goes up to where a line begins.
pub(crate) fn cut<'a>(
    alloc: Global,
    start: &AtCount<'a>,
    pieces: usize,
    share: usize,
) -> Result<Vec<Piece<'a>>, AllocError>
    ensures { IfOk result (λ cut. All (IsOf start.now.tokens.bytes) cut.items) }
{
    let mut cut = Vec::new(alloc);
    let mut place = usize::MAX;
    for k in 1..pieces {
        let before = share.saturating_mul(pieces - k);
        let (_, at) = start.count;
        if let Some(from) = start.next_line(at.saturating_add(before)) {
            let last = from.count.1.saturating_sub(1);
            cut.push(Piece {
                from,
                place,
                found: None,
            })?;
            place = last;
        }
    }
    cut.push(Piece {
        from: start.same(),
        place,
        found: None,
    })?;
    Ok(cut)
}

/// Reads each piece, by at most so many workers.
pub(crate) fn read_each<R: Threads + Sync>(
    rt: &R,
    alloc: Global,
    workers: usize,
    bounds: LineBounds,
    pieces: &mut [Piece<'_>],
)
    requires workers { 0 < workers }
    requires most { bounds.most ≤ MOST_BALLOTS }
    requires candidates { bounds.candidates ≤ MOST_CANDIDATES }
    ensures as_many { length pieces.new ≡ length pieces.old }
    ensures pieces { (bytes : List ℕ) → All (IsOf bytes) pieces.old → All (IsRead bounds bytes) pieces.new }
{
    let read = |turn: usize, piece: &mut Piece<'_>|
        requires { (bounds.most ≤ MOST_BALLOTS) × (bounds.candidates ≤ MOST_CANDIDATES) }
        ensures { IsReadOf bounds piece.entry.now piece.exit.now }
    {
        let _ = turn;
        piece.found = Found::read(alloc, &piece.from, bounds, piece.place);
    };
    thread::for_each_mut(rt, pieces, workers, &read);
}
