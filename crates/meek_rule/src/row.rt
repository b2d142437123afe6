// What is written down of an iteration.
ghost use Rattle.std.specs.Prelude.{◌≡◌, ◌≤◌, IfOk, false, replicate};
ghost use Rattle.candidate_roll.specs.declared.state.State.TheVariants.{Withdrawn};
ghost use Rattle.meek_rule.specs.Row.{HasRoomFor, blank};

use crate::{NoMemory, Step};
use candidate_roll::{State, States};
use fixed_place::{Amount, Amounts, Keep, Keeps};
use lot_order::Flags;
use std::alloc::Global;
use std::marker::Model;

/// What is written down of an iteration. States and keep values are those before it; of each list,
/// candidate c's item is at index c - 1. Amounts are in units of 10^-P votes.
#[derive(Debug, Drop)]
pub struct Row<const P: usize> {
    pub round: u32,
    pub iteration: u64,
    pub states: States,
    pub keeps: Keeps<P>,
    pub votes: Amounts<P>,
    pub total: Amount<P>,
    pub quota: Amount<P>,
    pub surplus: Amount<P>,
    pub elected: Flags,
    pub capped: Flags,
    pub tied: Flags,
    pub step: Step,
}

impl<const P: usize> Model for Row<P> {
    ghost use Rattle.meek_rule.specs.Row.{Row};

    ghost Value = { Row };

    ghost view = { λ a. record { round = a.round; iteration = a.iteration; states = a.states; keeps = a.keeps; votes = a.votes; total = a.total; quota = a.quota; surplus = a.surplus; elected = a.elected; capped = a.capped; tied = a.tied; step = a.step } };
}

impl<const P: usize> Row<P> {
    /// A row with room for as many candidates, on which nothing is written yet: all its numbers are 0, and
    /// nobody is marked.
    pub fn new(alloc: Global, candidates: u32) -> Result<Row<P>, NoMemory>
        requires places { (6 ≤ P) × (P ≤ 9) }
        ensures blank { IfOk result (λ row. row ≡ blank candidates) }
        ensures room { IfOk result (HasRoomFor candidates) }
    {
        let n = candidates as usize;
        let zero = Amount::from_units(0);
        let lists = Lists::new(alloc, n)?;
        let marks = Marks::new(alloc, n)?;
        Ok(Row {
            round: 0,
            iteration: 0,
            states: lists.states,
            keeps: lists.keeps,
            votes: lists.votes,
            total: zero,
            quota: zero,
            surplus: zero,
            elected: marks.elected,
            capped: marks.capped,
            tied: marks.tied,
            step: Step::Iterate,
        })
    }
}

// What a row says of each candidate.
#[derive(Drop)]
struct Lists<const P: usize> {
    states: States,
    keeps: Keeps<P>,
    votes: Amounts<P>,
}

impl<const P: usize> Lists<P> {
    fn new(alloc: Global, n: usize) -> Result<Lists<P>, NoMemory>
        requires places { (6 ≤ P) × (P ≤ 9) }
        ensures states { IfOk result (λ l. l.states ≡ replicate n Withdrawn) }
        ensures keeps { IfOk result (λ l. l.keeps ≡ replicate n 0) }
        ensures votes { IfOk result (λ l. l.votes ≡ replicate n 0) }
    {
        Ok(Lists {
            states: States::filled(alloc, n, State::Withdrawn)?,
            keeps: Keeps::filled(alloc, n, Keep::from_units(0))?,
            votes: Amounts::filled(alloc, n, Amount::from_units(0))?,
        })
    }
}

// Whom a row marks.
#[derive(Drop)]
struct Marks {
    elected: Flags,
    capped: Flags,
    tied: Flags,
}

impl Marks {
    fn new(alloc: Global, n: usize) -> Result<Marks, NoMemory>
        ensures elected { IfOk result (λ m. m.elected ≡ replicate n false) }
        ensures capped { IfOk result (λ m. m.capped ≡ replicate n false) }
        ensures tied { IfOk result (λ m. m.tied ≡ replicate n false) }
    {
        Ok(Marks {
            elected: Flags::filled(alloc, n, false)?,
            capped: Flags::filled(alloc, n, false)?,
            tied: Flags::filled(alloc, n, false)?,
        })
    }
}
