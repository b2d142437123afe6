// One change: its entry in the book, and what it leaves of its batch.
ghost use Rattle.std.specs.Prelude.{◌≡◌, ◌<◌, [], ◌∷◌, ◌++◌, IfOk, IfSome};
ghost use Rattle.batch_core.specs.Book.{batch_of, ballots_of, ballot_lines, reply, empty};
ghost use Rattle.batch_core.specs.Histories.{after_all};
ghost use Rattle.batch_core.specs.Lawful.{IsLawful};
ghost use Rattle.batch_core.specs.Shards.{shard_of};
ghost use Rattle.batch_core.specs.declared.call.Call.TheVariants.{Change as Changes};
ghost use Rattle.tally_cli.specs.Shown.{IsLeft};

use crate::NoMemory;
use batch_core::{Change, Reply};
use plain_ballots::{Ballots, Steps};
use shard_book::ShardBook;
use std::alloc::Global;
use std::sync::ledger::{Blank, Ledger};

/// Makes room for a change, and keeps it with its reply as the last entry. No steps are counted.
pub(crate) fn enter<L: Ledger>(
    alloc: Global,
    book: &mut ShardBook,
    team: u32,
    change: &Change,
    blank: Blank,
) -> Result<Reply, NoMemory>
    requires name { blank.name ≡ L.name }
    requires parts { blank.parts ≡ L.parts }
    requires some_part { 0 < blank.parts }
    requires lawful { IsLawful book.old.candidates change.now }
    requires shard { shard_of (batch_of change.now) book.old.shards ≡ book.old.shard }
    ensures shard { book.new.shard ≡ book.old.shard }
    ensures shards { book.new.shards ≡ book.old.shards }
    ensures candidates { book.new.candidates ≡ book.old.candidates }
    ensures answered { IfOk result (λ answer.
        answer ≡ reply (after_all empty book.old.entries) (Changes change.now)) }
    ensures entries { IfOk result (λ answer. book.new.entries
        ≡ book.old.entries
        ++ record { caller = team; call = Changes change.now; reply = answer } ∷ []) }
{
    let copy = change.copy(alloc)?;
    book.ready(&copy)?;
    let mut steps = Steps::<L>::new(blank);
    Ok(book.apply(team, copy, &mut steps))
}

/// A copy of the ballots that a change with this reply leaves in its batch, or None where it was
/// refused.
pub(crate) fn left_by(
    alloc: Global,
    candidates: u32,
    change: &Change,
    reply: Reply,
) -> Result<Option<Ballots>, NoMemory>
    requires lawful { IsLawful candidates change.now }
    ensures left { IfOk result (λ left. IsLeft change.now reply left) }
    ensures candidates { IfOk result (λ left. IfSome left (λ ballots. ballots.candidates ≡ candidates)) }
{
    match reply {
        Reply::Entered => Ok(Some(brought(alloc, candidates, change)?)),
        Reply::Corrected(_) => Ok(Some(brought(alloc, candidates, change)?)),
        Reply::Withdrawn(_) => Ok(Some(Ballots::new(alloc, candidates))),
        _ => Ok(None),
    }
}

/// A copy of the ballots that a change brings, which are none for a withdrawal.
fn brought(alloc: Global, candidates: u32, change: &Change) -> Result<Ballots, NoMemory>
    requires lawful { IsLawful candidates change.now }
    ensures lines { IfOk result (λ ballots. ballots.lines ≡ ballot_lines (ballots_of change.now)) }
    ensures candidates { IfOk result (λ ballots. ballots.candidates ≡ candidates) }
{
    let copied = match change {
        Change::Enter { ballots, .. } => ballots.copy(alloc),
        Change::Correct { ballots, .. } => ballots.copy(alloc),
        Change::Withdraw { .. } => Ok(Ballots::new(alloc, candidates)),
    };
    Ok(copied?)
}
