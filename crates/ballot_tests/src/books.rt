// A book of three candidates, and the shards of batches.
ghost use Rattle.std.specs.Prelude.{◌≡◌};
ghost use Rattle.batch_core.specs.Lawful.{IsInRange};

use crate::same::same;
use batch_core::{Book, Call, Change, Reply, shard_of};
use plain_ballots::Ballots;
use std::alloc::Global;
use std::process::Abort;

/// Batch 3 is corrected to no ballots, with this reply.
fn correct(rt: &impl Abort, alloc: Global, book: &mut Book, revision: u32, reply: Reply)
    requires candidates { book.old.candidates ≡ 3 }
    requires revision { IsInRange revision }
    ensures { book.new.candidates ≡ 3 }
{
    let change = Change::Correct {
        batch: 3,
        revision,
        ballots: Ballots::new(alloc, 3),
    };
    same(rt, book.step(Call::Change(change)).ok(), Some(reply));
}

// A spent batch that is changed at an old revision is stale.
#[test]
fn revisions_end_at_the_last(rt: HostRuntime) {
    let mut book = Book::new(rt.alloc(), 3);
    let enter = Change::Enter {
        batch: 3,
        ballots: Ballots::new(rt.alloc(), 3),
    };
    same(
        &rt,
        book.step(Call::Change(enter)).ok(),
        Some(Reply::Entered),
    );
    for revision in 1..9_999 {
        let reply = Reply::Corrected(revision + 1);
        correct(&rt, rt.alloc(), &mut book, revision, reply);
    }
    correct(&rt, rt.alloc(), &mut book, 9_999, Reply::Spent);
    correct(&rt, rt.alloc(), &mut book, 1, Reply::Stale(9_999));
}

#[test]
fn batches_are_dealt_out_in_turn(rt: HostRuntime) {
    let shards = [
        shard_of(1, 3),
        shard_of(3, 3),
        shard_of(4, 3),
        shard_of(9_999, 64),
        shard_of(9, 1),
    ];
    same(&rt, shards, [1, 3, 1, 15, 1]);
}
