// An election between two iterations.
ghost use Rattle.std.specs.Prelude.{◌≡◌, ◌+◌, ◌^◌, ◌<◌, ◌≤◌, true, length, IfOk};
ghost use Rattle.fixed_place.specs.Rounding.{scale, most};
ghost use Rattle.meek_rule.specs.Situation.{IsValid, IsOnItsWay, opening, is_complete, finished};

use crate::ending::{end_keeps, end_states};
use crate::states::{count_elected, count_hopeful};
use crate::{NoMemory, Stage};
use candidate_roll::{Roll, State, States};
use fixed_place::{Amount, Keep, Keeps, Omega, scale_of};
use std::alloc::Global;
use std::marker::Model;

mod iteration;

/// An election between two iterations: the seats, each candidate's state and keep value at index
/// c - 1, the numbers of the round and the iteration, the surplus of the iteration before in this
/// round, and omega, below which a surplus is not transferred.
#[derive(Debug, Drop)]
pub struct Situation<const P: usize> {
    seats: u32,
    states: States,
    keeps: Keeps<P>,
    round: u32,
    iteration: u64,
    previous: Option<Amount<P>>,
    omega: Omega,
}

impl<const P: usize> Model for Situation<P> {
    ghost use Rattle.std.specs.Prelude.{◌^◌, ◌≤◌};
    ghost use Rattle.meek_rule.specs.Situation.{Situation, IsValid};

    ghost Value = { Situation };

    ghost view = { λ a. record { seats = a.seats; states = a.states; keeps = a.keeps; round = a.round; iteration = a.iteration; previous = a.previous; omega = a.omega } };

    ghost invariant = { λ a. (6 ≤ P) × (P ≤ 9) × IsValid (10 ^ P) (record { seats = a.seats; states = a.states; keeps = a.keeps; round = a.round; iteration = a.iteration; previous = a.previous; omega = a.omega }) };
}

impl<const P: usize> Situation<P> {
    /// The situation that a count opens with.
    pub fn begin(alloc: Global, roll: &Roll, omega: Omega) -> Result<Situation<P>, NoMemory>
        requires { (6 ≤ P) × (P ≤ 9) }
        ensures opening { IfOk result (λ now. now ≡ opening (scale P) omega roll.now.seats roll.now.withdrawn) }
        ensures valid { IfOk result (IsValid (scale P)) }
        ensures on_its_way { IfOk result (IsOnItsWay (most P)) }
    {
        // Omega is in its range.
        let _range = omega.units();
        let n = roll.candidates();
        let mut states = States::filled(alloc, n as usize, State::Hopeful)?;
        let mut keeps = Keeps::filled(alloc, n as usize, Keep::from_units(scale_of::<P>()))?;
        for c in 1..n + 1 {
            if roll.is_withdrawn(c) {
                states.set((c - 1) as usize, State::Withdrawn);
                keeps.set((c - 1) as usize, Keep::from_units(0));
            }
        }
        Ok(Situation {
            seats: roll.seats(),
            states,
            keeps,
            round: 1,
            iteration: 1,
            previous: None,
            omega,
        })
    }

    /// The situation of these parts.
    pub fn from_parts(
        seats: u32,
        states: States,
        keeps: Keeps<P>,
        stage: Stage<P>,
        omega: Omega,
    ) -> Situation<P>
        requires valid { IsValid (scale P) (record { seats = seats; states = states; keeps = keeps; round = stage.round; iteration = stage.iteration; previous = stage.previous; omega = omega }) }
        ensures { result ≡ record { seats = seats; states = states; keeps = keeps.entry; round = stage.entry.round; iteration = stage.entry.iteration; previous = stage.entry.previous; omega = omega } }
    {
        // Its places are 6 to 9.
        let _places = keeps.len();
        let Stage {
            round,
            iteration,
            previous,
        } = stage;
        Situation {
            seats,
            states,
            keeps,
            round,
            iteration,
            previous,
            omega,
        }
    }

    pub fn states(&self) -> &States
        ensures { result.now ≡ self.now.states }
    {
        &self.states
    }

    pub fn keeps(&self) -> &Keeps<P>
        ensures { result.now ≡ self.now.keeps }
    {
        &self.keeps
    }

    /// The number of the round, from 1 on.
    pub fn round(&self) -> u32
        ensures { result ≡ self.now.round }
    {
        self.round
    }

    /// The number of the iteration within its round, from 1 on.
    pub fn iteration(&self) -> u64
        ensures { result ≡ self.now.iteration }
    {
        self.iteration
    }

    /// The surplus of the iteration before in this round, or none at its first.
    pub fn previous(&self) -> Option<Amount<P>>
        ensures { result ≡ self.now.previous }
    {
        self.previous
    }

    /// Whether all seats are taken, or nobody is left to be defeated.
    pub fn is_complete(&self) -> bool
        ensures { result ≡ is_complete self.now }
    {
        let elected = count_elected(&self.states);
        elected == self.seats || elected + count_hopeful(&self.states) <= self.seats
    }

    /// Ends the count: each hopeful candidate that remains is defeated where the seats are taken, and
    /// otherwise elected.
    pub fn finish(&mut self)
        requires { is_complete self.old ≡ true }
        ensures finished { self.new ≡ finished self.old }
        ensures complete { is_complete self.new ≡ true }
        ensures valid { IsValid (scale P) self.new }
        ensures same_candidates { length self.new.states ≡ length self.old.states }
    {
        let full = count_elected(&self.states) == self.seats;
        end_keeps(&self.states, &mut self.keeps, full);
        end_states(&mut self.states, full);
    }
}
