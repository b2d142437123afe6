// The book of a day, and the board that shows what is in it.
ghost use Rattle.std.specs.Prelude.{◌≡◌, ◌-◌, [], ◌∷◌, ◌++◌, length, map, slice_set, OnOk};
ghost use Rattle.batch_core.specs.declared.limits.TheConstants.{LAST_NUMBER};
ghost use Rattle.batch_core.specs.Lawful.{IsInRange, IsLawful};
ghost use Rattle.batch_core.specs.declared.call.Call.TheVariants.{Change as Changes};
ghost use Rattle.tally_board.specs.Moves.{totals_after};
ghost use Rattle.tally_cli.specs.Changes.{asked};
ghost use Rattle.tally_cli.specs.LineMoves.{exchange};
ghost use Rattle.tally_cli.specs.Shown.{AreExchanged, CanExchange, IsShown, kept_for};

use crate::NoMemory;
use crate::entering::{enter, left_by};
use crate::moves::exchange;
use batch_core::{Change, a_book_answers_a_history, lawful_calls_leave_lawful_batches};
use plain_ballots::Ballots;
use shard_book::ShardBook;
use std::alloc::Global;
use std::marker::Brand;
use std::sync::Wait;
use std::sync::ledger::Blank;
use tally_board::Scribe;

/// The book of all batches, the scribe of the board, and for each batch, at its number less 1, a copy
/// of the ballots that stand in it. It is not `Drop`: the scribe is to be closed.
pub(crate) struct Hall {
    pub(crate) book: ShardBook,
    pub(crate) scribe: Scribe,
    pub(crate) kept: Vec<Ballots>,
}

impl Hall {
    /// Makes a change of a team. If it is accepted, its moves are published at once.
    pub(crate) fn make<R: Wait>(
        &mut self,
        rt: &R,
        alloc: Global,
        team: u32,
        change: &Change,
    ) -> Result<(), NoMemory>
        requires shown { IsShown self.old }
        requires lawful { IsLawful self.old.book.candidates change.now }
        ensures candidates { OnOk result (self.new.book.candidates ≡ self.old.book.candidates) }
        ensures shown { OnOk result (IsShown self.new) }
        ensures entry { OnOk result (map asked self.new.book.entries
            ≡ map asked self.old.book.entries ++ (team, Changes change.now) ∷ []) }
    {
        a_book_answers_a_history();
        lawful_calls_leave_lawful_batches();
        let candidates = self.book.trie().candidates();
        let reply = enter::<Brand>(alloc, &mut self.book, team, change, Blank::new(1))?;
        match left_by(alloc, candidates, change, reply)? {
            Some(ballots) => self.show(rt, change.batch(), ballots),
            None => Ok(()),
        }
    }

    /// Publishes at once that the old ballots of a batch go and the new ones come.
    fn show<R: Wait>(&mut self, rt: &R, batch: u32, ballots: Ballots) -> Result<(), NoMemory>
        requires batch { IsInRange batch }
        requires candidates { ballots.candidates ≡ self.old.scribe.candidates }
        requires all { length self.old.kept.items ≡ LAST_NUMBER }
        requires of_candidates { (kept_for self.old.scribe.candidates self.old.kept.items batch).candidates
            ≡ self.old.scribe.candidates }
        requires pending { self.old.scribe.pending ≡ [] }
        requires exchange { CanExchange self.old.scribe.candidates
            (totals_after self.old.scribe.candidates self.old.scribe.published)
            (kept_for self.old.scribe.candidates self.old.kept.items batch).lines ballots.lines }
        ensures book { self.new.book ≡ self.old.book }
        ensures scribe { OnOk result (self.new.scribe ≡ record self.old.scribe {
          published = self.old.scribe.published
              ++ exchange (kept_for self.old.scribe.candidates self.old.kept.items batch).lines ballots.lines;
        }) }
        ensures kept { OnOk result (self.new.kept.items
            ≡ slice_set self.old.kept.items (batch - 1) ballots) }
        ensures totals { OnOk result (AreExchanged self.old.scribe.candidates
            (totals_after self.old.scribe.candidates self.old.scribe.published)
            (kept_for self.old.scribe.candidates self.old.kept.items batch).lines ballots.lines
            (totals_after self.old.scribe.candidates self.new.scribe.published)) }
    {
        let place = batch as usize - 1;
        exchange(
            rt,
            &mut self.scribe,
            self.kept[place].lines(),
            ballots.lines(),
        )?;
        self.kept[place] = ballots;
        Ok(())
    }
}
