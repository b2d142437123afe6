// One iteration of the rule.
ghost use Rattle.std.specs.Prelude.{◌≡◌, ◌+◌, ◌-◌, ◌^◌, ◌<◌, ◌≤◌, true, false, length, replicate, sum};
ghost use Rattle.fixed_place.specs.Rounding.{scale, most};
ghost use Rattle.candidate_roll.specs.State.{state_at};
ghost use Rattle.meek_rule.specs.Situation.{IsValid, IsOnItsWay, is_complete, is_hopeful, steps_left};
ghost use Rattle.meek_rule.specs.Row.{HasRoomFor};
ghost use Rattle.meek_rule.specs.KeepValues.{new_keeps, capped};
ghost use Rattle.meek_rule.specs.Iteration.{Settle, HasOnlyRunningVotes, has_to_defeat, with_elected, with_defeated, with_keeps};
ghost use Rattle.meek_rule.specs.Steps.{IsCounted, AreElectable};

use crate::keep_values::update_keeps;
use crate::quota::{quota_of, total_of};
use crate::states::count_elected;
use crate::surplus::surplus_of;
use crate::ties::mark_tied;
use crate::winners::{count_marked, elect, mark_winners};
use crate::{Row, Situation, Step};
use candidate_roll::State;
use fixed_place::{Amount, Amounts, Keep};
use lot_order::{Flags, Lots};

impl<const P: usize> Situation<P> {
    /// Does one iteration of the rule with the votes of a distribution, and fills the row.
    pub fn settle(&mut self, votes: &Amounts<P>, lots: &Lots, row: &mut Row<P>)
        requires open { is_complete self.old ≡ false }
        requires rounds { self.old.round + 1 < 2 ^ 32 }
        requires iterations { self.old.iteration + 1 < 2 ^ 64 }
        requires votes_of_all { length votes.now ≡ length self.old.states }
        requires lots_of_all { length lots.now ≡ length self.old.states }
        requires row_of_all { HasRoomFor (length self.old.states) row.old }
        requires only_running { HasOnlyRunningVotes self.old.states votes.now }
        requires few { sum votes.now ≤ most P }
        ensures settle { Settle (scale P) self.old votes.now lots.now row.new self.new }
        ensures valid { IsValid (scale P) self.new }
        ensures nearer { steps_left (most P) self.new < steps_left (most P) self.old }
        ensures on_its_way { IsOnItsWay (most P) self.old → IsOnItsWay (most P) self.new }
        ensures same_candidates { length self.new.states ≡ length self.old.states }
        ensures row_of_all { HasRoomFor (length self.new.states) row.new }
    {
        let _order = lots.candidates();
        self.count(votes, lots, row);
        if count_marked(&row.elected) > 0 {
            self.elect(&row.elected);
            row.step = Step::Elected;
        } else if self.has_to_defeat(row.surplus) {
            mark_tied(&self.states, votes, row.surplus, &mut row.tied);
            let loser = lots.first_of(&row.tied);
            self.defeat(loser);
            row.step = Step::Defeat(loser);
        } else {
            self.transfer(votes, row.quota, row.surplus, &mut row.capped);
            row.step = Step::Iterate;
        }
    }

    /// Writes down the votes and what follows from them, up to the surplus; nobody is capped or tied.
    fn count(&self, votes: &Amounts<P>, lots: &Lots, row: &mut Row<P>)
        requires votes_of_all { length votes.now ≡ length self.now.states }
        requires lots_of_all { length lots.now ≡ length self.now.states }
        requires row_of_all { HasRoomFor (length self.now.states) row.old }
        requires few { sum votes.now ≤ most P }
        ensures counted { IsCounted self.now votes.now lots.now row.new }
        ensures valid { IsValid (scale P) self.now }
    {
        row.round = self.round;
        row.iteration = self.iteration;
        row.states.copy_from(&self.states);
        row.keeps.copy_from(&self.keeps);
        row.votes.copy_from(votes);
        row.capped.fill(false);
        row.tied.fill(false);
        row.total = total_of(votes);
        row.quota = quota_of(row.total, self.seats);
        let free = self.seats - count_elected(&self.states);
        mark_winners(&self.states, votes, row.quota, free, lots, &mut row.elected);
        row.surplus = surplus_of(&self.states, &row.elected, votes, row.quota);
    }

    /// Whether somebody has to be defeated.
    fn has_to_defeat(&self, surplus: Amount<P>) -> bool
        ensures { result ≡ has_to_defeat self.now surplus.entry }
    {
        surplus.units() < self.omega.units() as u64
            || match self.previous {
                Some(before) => surplus.units() >= before.units(),
                None => false,
            }
    }

    /// Elects the winners; a new round begins.
    fn elect(&mut self, winners: &Flags)
        requires rounds { self.old.round + 1 < 2 ^ 32 }
        requires electable { AreElectable self.old winners.now }
        ensures { self.new ≡ with_elected self.old winners.now }
    {
        elect(&mut self.states, winners);
        self.round += 1;
        self.iteration = 1;
        self.previous = None;
    }

    /// Defeats a hopeful candidate; a new round begins.
    fn defeat(&mut self, c: u32)
        requires rounds { self.old.round + 1 < 2 ^ 32 }
        requires candidate { (1 ≤ c) × (c ≤ length self.old.states) }
        requires hopeful { is_hopeful (state_at self.old.states (c - 1)) ≡ true }
        ensures { self.new ≡ with_defeated self.old c }
    {
        self.states.set((c - 1) as usize, State::Defeated);
        self.keeps.set((c - 1) as usize, Keep::from_units(0));
        self.round += 1;
        self.iteration = 1;
        self.previous = None;
    }

    /// Gives the elected their next keep values and marks the capped; the next iteration follows.
    fn transfer(
        &mut self,
        votes: &Amounts<P>,
        quota: Amount<P>,
        surplus: Amount<P>,
        marks: &mut Flags,
    )
        requires iterations { self.old.iteration + 1 < 2 ^ 64 }
        requires votes_of_all { length votes.now ≡ length self.old.states }
        requires unmarked { marks.old ≡ replicate (length self.old.states) false }
        ensures next { self.new ≡ with_keeps self.old (new_keeps (scale P) self.old.states self.old.keeps votes.now quota.entry) surplus.entry }
        ensures capped { marks.new ≡ capped (scale P) self.old.states self.old.keeps votes.now quota.entry }
    {
        update_keeps(&self.states, votes, quota, &mut self.keeps, marks);
        self.iteration += 1;
        self.previous = Some(surplus);
    }
}
