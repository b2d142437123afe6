// A hall before the first change.
ghost use Rattle.std.specs.Prelude.{◌≡◌, ◌≤◌, [], replicate, IfOk};
ghost use Rattle.plain_ballots.specs.declared.limits.TheConstants.{MOST_CANDIDATES};
ghost use Rattle.batch_core.specs.declared.limits.TheConstants.{LAST_NUMBER};
ghost use Rattle.tally_cli.specs.Shown.{IsShown};

use crate::NoMemory;
use crate::hall::Hall;
use batch_core::LAST_NUMBER;
use plain_ballots::Ballots;
use shard_book::ShardBook;
use std::alloc::Global;
use std::sync::Wait;
use tally_board::open_board;

/// A hall in which no ballots stand.
pub(crate) fn open_hall<R: Wait>(rt: &R, alloc: Global, candidates: u32) -> Result<Hall, NoMemory>
    requires { (1 ≤ candidates) × (candidates ≤ MOST_CANDIDATES) }
    ensures candidates { IfOk result (λ hall. hall.book.candidates ≡ candidates) }
    ensures entries { IfOk result (λ hall. hall.book.entries ≡ []) }
    ensures shown { IfOk result IsShown }
{
    let kept = nothing_kept(alloc, candidates)?;
    let Ok((scribe, _)) = open_board(rt, alloc, candidates, 0) else {
        return Err(NoMemory);
    };
    Ok(Hall {
        book: ShardBook::new(alloc, 1, 1, candidates),
        scribe,
        kept,
    })
}

/// No ballots for each batch.
fn nothing_kept(alloc: Global, candidates: u32) -> Result<Vec<Ballots>, NoMemory>
    ensures { IfOk result (λ kept.
        kept.items ≡ replicate LAST_NUMBER (record { candidates = candidates; lines = [] })) }
{
    let mut kept = Vec::new(alloc);
    for _ in 0..LAST_NUMBER {
        kept.push(Ballots::new(alloc, candidates))?;
    }
    Ok(kept)
}
