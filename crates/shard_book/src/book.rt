// The book of one shard.
ghost use Rattle.std.specs.Prelude.{◌≡◌, ◌+◌, ◌≤◌, [], ◌∷◌, ◌++◌, OnOk, IsPermutation};
ghost use Rattle.plain_ballots.specs.declared.limits.TheConstants.{MOST_CANDIDATES};
ghost use Rattle.plain_ballots.specs.Ballots.{plain};
ghost use Rattle.batch_core.specs.Book.{batch_of, reply, empty, standing};
ghost use Rattle.batch_core.specs.Histories.{after_all};
ghost use Rattle.batch_core.specs.Lawful.{IsLawful};
ghost use Rattle.batch_core.specs.Shards.{shard_of};
ghost use Rattle.batch_core.specs.declared.call.Call.TheVariants.{Change as Changes};
ghost use Rattle.ranking_trie.specs.Lines.{visit_count};
ghost use Rattle.shard_book.specs.Shard.{HasRoom, AreOfShard};
ghost use Rattle.shard_book.specs.Turnover.{taken_out, put_in};

use crate::NoMemory;
use crate::index::{answer, standing_place};
use crate::row::Row;
use crate::turnover::{follow, ranks_in};
use batch_core::{
    Call, Change, Entries, Entry, Reply, a_book_answers_a_history,
    lawful_calls_leave_lawful_batches,
};
use indexmap::IndexMap;
use plain_ballots::{Steps, lines_stand_for_ballots};
use ranking_trie::Trie;
use std::alloc::Global;
use std::marker::Model;
use std::sync::ledger::Ledger;

/// The changes of the batches of one shard, answered and kept in their order, and the ballots that
/// stand after them.
#[derive(Drop)]
pub struct ShardBook {
    shard: u32,
    shards: u32,
    candidates: u32,
    index: IndexMap<u32, Row>,
    entries: Entries,
    trie: Trie,
}

impl Model for ShardBook {
    ghost use Rattle.std.specs.Prelude.{◌≡◌, min, nat_eq, IsPermutation};
    ghost use Rattle.indexmap.specs.IndexMap.{get, spare};
    ghost use Rattle.plain_ballots.specs.Ballots.{plain};
    ghost use Rattle.batch_core.specs.Book.{empty, standing};
    ghost use Rattle.batch_core.specs.Histories.{after_all};
    ghost use Rattle.shard_book.specs.Rows.{AreRows};
    ghost use Rattle.shard_book.specs.Shard.{ShardState, AreOfShard};

    ghost Value = { ShardState };

    ghost view = { λ b. record {
      shard = b.shard;
      shards = b.shards;
      candidates = b.candidates;
      entries = b.entries.items;
      ballots = b.trie.ballots;
      spare = min (spare b.index) b.entries.spare;
      spare_ranks = b.trie.spare;
    } };

    ghost invariant = { λ b.
        AreOfShard b.candidates b.shards b.shard b.entries.items
        × AreRows b.entries.items (get nat_eq b.index) (after_all empty b.entries.items)
        × (b.trie.candidates ≡ b.candidates)
        × IsPermutation b.trie.ballots (plain (standing (after_all empty b.entries.items))) };
}

impl ShardBook {
    /// The book of a shard without entries, in an office of so many shards and of 1 to 250 candidates.
    pub fn new(alloc: Global, shard: u32, shards: u32, candidates: u32) -> ShardBook
        requires shard { (1 ≤ shard) × (shard ≤ shards) }
        requires candidates { (1 ≤ candidates) × (candidates ≤ MOST_CANDIDATES) }
        ensures shard { result.shard ≡ shard }
        ensures shards { result.shards ≡ shards }
        ensures candidates { result.candidates ≡ candidates }
        ensures entries { result.entries ≡ [] }
        ensures ballots { result.ballots ≡ [] }
    {
        ShardBook {
            shard,
            shards,
            candidates,
            index: IndexMap::new(alloc),
            entries: Entries::new(alloc),
            trie: Trie::new(alloc, candidates),
        }
    }

    /// Makes room for a change. After want of memory the book is as it was, but for room that was
    /// made before.
    pub fn ready(&mut self, change: &Change) -> Result<(), NoMemory>
        ensures shard { self.new.shard ≡ self.old.shard }
        ensures shards { self.new.shards ≡ self.old.shards }
        ensures candidates { self.new.candidates ≡ self.old.candidates }
        ensures entries { self.new.entries ≡ self.old.entries }
        ensures ballots { self.new.ballots ≡ self.old.ballots }
        ensures room { OnOk result (HasRoom self.new change.now) }
    {
        if self.index.reserve(1).is_err() || self.entries.reserve(1).is_err() {
            return Err(NoMemory);
        }
        match self.trie.reserve(ranks_in(change)) {
            Ok(()) => Ok(()),
            Err(_) => Err(NoMemory),
        }
    }

    /// Answers a change that there is room for, and keeps it as the last entry. It takes a step for
    /// each line of ballots that it takes out or puts in, and one for each rank of them.
    pub fn apply<L: Ledger>(&mut self, caller: u32, change: Change, steps: &mut Steps<L>) -> Reply
        requires lawful { IsLawful self.old.candidates change }
        requires shard { shard_of (batch_of change) self.old.shards ≡ self.old.shard }
        requires room { HasRoom self.old change }
        ensures shard { self.new.shard ≡ self.old.shard }
        ensures shards { self.new.shards ≡ self.old.shards }
        ensures candidates { self.new.candidates ≡ self.old.candidates }
        ensures answered { result ≡ reply (after_all empty self.old.entries) (Changes change) }
        ensures entries { self.new.entries
            ≡ self.old.entries
            ++ record { caller = caller; call = Changes change; reply = result } ∷ [] }
        ensures ballots { IsPermutation self.new.ballots
            (plain (standing (after_all empty self.new.entries))) }
        ensures cost { steps.new ≡ steps.old
            + visit_count (taken_out (after_all empty self.old.entries) change)
            + visit_count (put_in (after_all empty self.old.entries) change) }
    {
        a_book_answers_a_history();
        lawful_calls_leave_lawful_batches();
        lines_stand_for_ballots();
        let place = standing_place(&self.index, change.batch());
        let reply = answer(&mut self.index, &change, self.entries.len());
        follow(&mut self.trie, &self.entries, place, &change, reply, steps);
        let entry = Entry {
            caller,
            call: Call::Change(change),
            reply,
        };
        self.entries.push_reserved(entry);
        reply
    }

    /// The changes of this shard with their replies, in their order.
    pub fn entries(&self) -> &Entries
        ensures entries { result.now.items ≡ self.now.entries }
        ensures shard { AreOfShard self.now.candidates self.now.shards self.now.shard
            self.now.entries }
    {
        &self.entries
    }

    /// The ballots that stand after all entries.
    pub fn trie(&self) -> &Trie
        ensures candidates { result.now.candidates ≡ self.now.candidates }
        ensures ballots { result.now.ballots ≡ self.now.ballots }
        ensures standing { IsPermutation self.now.ballots
            (plain (standing (after_all empty self.now.entries))) }
    {
        &self.trie
    }

    /// The entries, when the shard's book is given up.
    pub fn into_entries(self) -> Entries
        ensures entries { result.items ≡ self.entries }
        ensures shard { AreOfShard self.candidates self.shards self.shard self.entries }
    {
        self.entries
    }
}
