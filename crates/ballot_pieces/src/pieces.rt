// Reading in pieces.
ghost use Rattle.std.specs.Prelude.{◌≡◌, ◌≤◌, [], IfOk};
ghost use Rattle.plain_ballots.specs.declared.limits.TheConstants.{MOST_BALLOTS};
ghost use Rattle.ballot_pieces.specs.Found.{IsFound};

use crate::at_count::AtCount;
use crate::found::Found;
use crate::piece::{cut, read_each};
use blt_reader::{BltStop, LineBounds, LineReader, OneByOne, read_lines_on};
use input_text::Tokens;
use packed_ballots::{NoMemory, PackedBallots};
use std::alloc::Global;
use std::marker::{Model, PhantomData};
use std::thread::Threads;

/// Of fewer bytes than these for each worker one reader reads all: a thread takes about as long as reading
/// a tenth of them.
const LEAST_SHARE: usize = 256 * 1024;

/// Ballot lines read in as many pieces as there are workers, each in a thread of its own. It is itself the
/// leave to start threads that it was made with.
#[derive(Drop)]
pub struct Pieces<R: Threads + Sync> {
    leave: PhantomData<R>,
    workers: u32,
}

impl<R: Threads + Sync> Model for Pieces<R> {
    ghost use Rattle.std.specs.Prelude.{ℕ};

    ghost Value = { ℕ };

    ghost view = { λ p. p.workers };
}

impl<R: Threads + Sync> Threads for Pieces<R> {}

impl<R: Threads + Sync> Pieces<R> {
    /// By so many workers; of fewer than two the caller's thread reads all. What is read is the same for every
    /// number of them, as the contract of `read_lines` says.
    pub fn new(rt: &R, workers: u32) -> Self
        ensures { result ≡ workers }
    {
        let _ = rt;
        Pieces {
            leave: PhantomData,
            workers,
        }
    }
}

impl<R: Threads + Sync> LineReader<PackedBallots> for Pieces<R> {
    fn read_lines(
        &self,
        alloc: Global,
        tokens: &mut Tokens<'_>,
        empty: PackedBallots,
        bounds: LineBounds,
        first: (u32, usize),
    ) -> Result<PackedBallots, BltStop> {
        let share = share_of(tokens.input_len(), first.1, self.workers);
        if self.workers < 2 || share < LEAST_SHARE {
            return OneByOne.read_lines(alloc, tokens, empty, bounds, first);
        }
        let start = AtCount {
            count: first,
            tokens: tokens.same(),
        };
        let Ok(found) = read_from(self, alloc, self.workers, bounds, &start, empty) else {
            return Err(BltStop::NoMemory);
        };
        let Found { ballots, to } = found;
        let AtCount {
            count,
            tokens: behind,
        } = to;
        *tokens = behind;
        read_lines_on(alloc, tokens, ballots, bounds, count)
    }
}

/// Reads pieces from a count on, by so many workers, and puts together those that stand one after another.
fn read_from<'a, R: Threads + Sync>(
    leave: &R,
    alloc: Global,
    workers: u32,
    bounds: LineBounds,
    start: &AtCount<'a>,
    empty: PackedBallots,
) -> Result<Found<'a>, NoMemory>
    requires workers { 1 ≤ workers }
    requires most { bounds.most ≤ MOST_BALLOTS }
    requires candidates { empty.candidates ≡ bounds.candidates }
    ensures { IfOk result (IsFound bounds empty start.now) }
{
    let _few = empty.candidates();
    let share = share_of(start.tokens.input_len(), start.count.1, workers);
    let mut pieces = cut(alloc, start, workers as usize, share)?;
    read_each(
        leave,
        alloc,
        workers as usize,
        bounds,
        pieces.as_mut_slice(),
    );
    Found::joined(pieces, start, empty, bounds)
}

/// How many bytes each of so many workers gets of those from a place on.
fn share_of(len: usize, at: usize, workers: u32) -> usize {
    if workers == 0 {
        return 0;
    }
    len.saturating_sub(at) / workers as usize
}
