// A count in steps.
ghost use Rattle.std.specs.Prelude.{◌≡◌, ◌≤◌, ◌<◌, ◌↔◌, true, false, [], ◌∷◌, length, IfOk, IsTrue};
ghost use Rattle.plain_ballots.specs.declared.limits.TheConstants.{MOST_BALLOTS};
ghost use Rattle.fixed_place.specs.Rounding.{scale, most};
ghost use Rattle.meek_rule.specs.Situation.{IsValid, is_complete, finished, final_states, opening, steps_left};
ghost use Rattle.meek_rule.specs.Row.{HasRoomFor};
ghost use Rattle.meek_rule.specs.Weights.{votes_under};
ghost use Rattle.meek_count.specs.Rows.{IteratesTo};
ghost use Rattle.meek_count.specs.Progress.{IsSameElection, HasJustBegun, HasRest, RowsLead};

use crate::Turn;
use candidate_roll::{Roll, States};
use fixed_place::{Amount, Amounts, Keeps, Omega};
use lot_order::Lots;
use meek_rule::{NoMemory, Row, Situation, Spread, Step};
use std::alloc::Global;
use std::marker::Model;

/// A count of the ballots of a spread by its rule, iteration by iteration.
#[derive(Drop)]
pub struct Count<'e, const P: usize, D: Spread<P> + Drop> {
    roll: &'e Roll,
    lots: &'e Lots,
    spread: D,
    situation: Situation<P>,
    tally: Amounts<P>,
    tally_stands: bool,
    row: Row<P>,
    has_row: bool,
}

impl<'e, const P: usize, D: Spread<P> + Drop> Model for Count<'e, P, D> {
    ghost use Rattle.std.specs.Prelude.{◌≡◌, ◌≤◌, ◌+◌, ◌^◌, length, IsTrue};
    ghost use Rattle.meek_rule.specs.Weights.{votes_under};
    ghost use Rattle.meek_count.specs.Progress.{Progress, IsCounting};

    ghost Value = { Progress };

    ghost view = { λ c. record { roll = c.roll.now; lots = c.lots.now; ballots = D.ballots c.spread; situation = c.situation; has_row = c.has_row; row = c.row } };

    ghost invariant = { λ c.
        (6 ≤ P) × (P ≤ 9)
        × D.can_spread c.spread
        × (D.candidates c.spread ≡ length c.situation.states)
        × (length c.tally ≡ length c.situation.states)
        × (IsTrue c.tally_stands → c.tally ≡ votes_under D.rule (10 ^ P) c.situation.keeps (D.ballots c.spread) (D.candidates c.spread))
        × IsCounting (10 ^ P) (10 ^ (P + 9)) (record { roll = c.roll.now; lots = c.lots.now; ballots = D.ballots c.spread; situation = c.situation; has_row = c.has_row; row = c.row }) };
}

impl<'e, const P: usize, D: Spread<P> + Drop> Count<'e, P, D> {
    /// The count of an election that was not begun yet. A surplus below omega is not transferred.
    pub fn begin(
        alloc: Global,
        roll: &'e Roll,
        lots: &'e Lots,
        spread: D,
        omega: Omega,
    ) -> Result<Count<'e, P, D>, NoMemory>
        requires places { (6 ≤ P) × (P ≤ 9) }
        requires lots_of_all { length lots.now ≡ length roll.now.names }
        requires can_spread { D.can_spread spread }
        requires spread_of_all { D.candidates spread ≡ length roll.now.names }
        requires few_ballots { length (D.ballots spread) ≤ MOST_BALLOTS }
        ensures opens { IfOk result (λ count. count.situation ≡ opening (scale P) omega roll.now.seats roll.now.withdrawn) }
        ensures begun { IfOk result (HasJustBegun (scale P)) }
        ensures roll { IfOk result (λ count. count.roll ≡ roll.now) }
        ensures lots { IfOk result (λ count. count.lots ≡ lots.now) }
        ensures ballots { IfOk result (λ count. count.ballots ≡ D.ballots spread) }
        ensures no_row { IfOk result (λ count. count.has_row ≡ false) }
        ensures rest { IfOk result (HasRest D.rule (scale P)) }
    {
        let _order = lots.candidates();
        let n = roll.candidates();
        let situation = Situation::begin(alloc, roll, omega)?;
        let tally = Amounts::filled(alloc, n as usize, Amount::from_units(0))?;
        let row = Row::new(alloc, n)?;
        Ok(Count {
            roll,
            lots,
            spread,
            situation,
            tally,
            tally_stands: false,
            row,
            has_row: false,
        })
    }

    /// Makes one iteration, or ends the count where it is complete. At the end a further call changes
    /// nothing.
    pub fn next(&mut self) -> Turn
        ensures at_end { result ≡ Turn.Finished ↔ (is_complete self.old.situation ≡ true) }

        // The end.
        ensures finished { result ≡ Turn.Finished → self.new ≡ record self.old { situation = finished self.old.situation } }
        ensures last { result ≡ Turn.Finished → self.new.situation.states ≡ final_states self.old.situation }
        ensures ended { result ≡ Turn.Finished → is_complete self.new.situation ≡ true }
        ensures settled { result ≡ Turn.Finished → finished self.new.situation ≡ self.new.situation }

        // An iteration.
        ensures iterated { result ≡ Turn.Iterated → IteratesTo D.rule (scale P) self.old.ballots self.old.lots self.old.situation self.new.row self.new.situation }
        ensures leads { result ≡ Turn.Iterated → RowsLead D.rule (scale P) self.old (self.new.row ∷ []) self.new }
        ensures has_row { result ≡ Turn.Iterated → self.new.has_row ≡ true }
        ensures nearer { result ≡ Turn.Iterated → steps_left (most P) self.new.situation < steps_left (most P) self.old.situation }

        ensures same { IsSameElection self.old self.new }
        ensures valid { IsValid (scale P) self.new.situation }
        ensures rest { HasRest D.rule (scale P) self.new }
    {
        if self.situation.is_complete() {
            self.situation.finish();
            self.tally_stands = false;
            return Turn::Finished;
        }
        distribute(
            &mut self.spread,
            self.situation.keeps(),
            &mut self.tally,
            self.tally_stands,
        );
        self.situation.settle(&self.tally, self.lots, &mut self.row);
        self.tally_stands = is_election(&self.row);
        self.has_row = true;
        Turn::Iterated
    }

    /// The row of the last iteration.
    pub fn row(&self) -> &Row<P>
        requires { self.now.has_row ≡ true }
        ensures value { result.now ≡ self.now.row }
        ensures of_all { HasRoomFor (length self.now.roll.names) result.now }
    {
        &self.row
    }

    /// The candidates' states where the count stands.
    pub fn states(&self) -> &States
        ensures value { result.now ≡ self.now.situation.states }
        ensures of_all { length result.now ≡ length self.now.roll.names }
    {
        self.situation.states()
    }

    pub fn roll(&self) -> &Roll
        ensures value { result.now ≡ self.now.roll }
        ensures rest { HasRest D.rule (scale P) self.now }
    {
        self.roll
    }

    /// The number of all ballots, empty ones included.
    pub fn ballots(&self) -> u64
        ensures value { result ≡ length self.now.ballots }
        ensures few { length self.now.ballots ≤ MOST_BALLOTS }
        ensures rest { HasRest D.rule (scale P) self.now }
    {
        self.spread.ballots()
    }
}

/// Distributes the ballots, unless the tally is at these keep values already.
fn distribute<const P: usize, D: Spread<P>>(
    spread: &mut D,
    keeps: &Keeps<P>,
    tally: &mut Amounts<P>,
    stands: bool,
)
    requires can { D.can_spread spread.old }
    requires keeps_of_all { length keeps.now ≡ D.candidates spread.old }
    requires votes_of_all { length tally.old ≡ D.candidates spread.old }
    requires stands { IsTrue stands → tally.old ≡ votes_under D.rule (scale P) keeps.now (D.ballots spread.old) (D.candidates spread.old) }
    ensures votes { tally.new ≡ votes_under D.rule (scale P) keeps.now (D.ballots spread.old) (D.candidates spread.old) }
    ensures still_can { D.can_spread spread.new }
    ensures same { D.ballots spread.new ≡ D.ballots spread.old }
    ensures same_candidates { D.candidates spread.new ≡ D.candidates spread.old }
{
    if !stands {
        spread.spread(keeps, tally);
    }
}

/// Whether somebody was elected, so that no keep value changed.
fn is_election<const P: usize>(row: &Row<P>) -> bool
    ensures { IsTrue result ↔ (row.now.step ≡ Step.Elected) }
{
    row.step == Step::Elected
}
