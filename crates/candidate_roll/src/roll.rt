// An election as it was announced.
ghost use Rattle.std.specs.Prelude.{◌≡◌, ◌-◌, ◌≤◌, length, slice_get, All, IfOk, IfErr};
ghost use Rattle.candidate_roll.specs.Roll.{IsRoll, IsRollStop, is_withdrawn, withdrawn_marks, marks_with};

use crate::{MOST_NAME_BYTES, MOST_TITLE_BYTES, Name, Names, NoMemory, RollStop};
use plain_ballots::MOST_CANDIDATES;
use std::alloc::Global;
use std::marker::Model;

/// An election as it was announced: its seats, its candidates by number, its title, and who was
/// withdrawn. Candidates are numbered from 1.
#[derive(Debug, Drop)]
pub struct Roll {
    seats: u32,
    names: Names,
    title: Name<MOST_TITLE_BYTES>,
    withdrawn: Vec<bool>,
}

impl Model for Roll {
    ghost use Rattle.candidate_roll.specs.Roll.{RollList, IsRoll};

    ghost Value = { RollList };

    ghost view = { λ r. record { seats = r.seats; names = r.names; title = r.title; withdrawn = r.withdrawn.items } };

    ghost invariant = { λ r. IsRoll (record { seats = r.seats; names = r.names; title = r.title; withdrawn = r.withdrawn.items }) };
}

impl Roll {
    /// The roll of these seats and candidates, of whom the listed ones are withdrawn. A number may
    /// be listed more than once.
    pub fn try_new(
        alloc: Global,
        seats: u32,
        names: Names,
        title: Name<MOST_TITLE_BYTES>,
        withdrawn: &[u32],
    ) -> Result<Roll, RollStop>
        requires { All (λ c. (1 ≤ c) × (c ≤ length names)) withdrawn.now }
        ensures ok { IfOk result (λ roll. roll ≡ record {
          seats = seats;
          names = names;
          title = title;
          withdrawn = withdrawn_marks (length names) withdrawn.now;
        }) }
        ensures sound { IfOk result IsRoll }
        ensures stop { IfErr result (IsRollStop seats (length names)) }
    {
        if names.len() < 1 || names.len() > MOST_CANDIDATES as usize {
            return Err(RollStop::BadCount);
        }
        if seats < 1 || seats > MOST_CANDIDATES {
            return Err(RollStop::BadSeats);
        }
        let Ok(mut marks) = vec![in alloc; false; names.len()] else {
            return Err(RollStop::NoMemory);
        };
        mark_listed(marks.as_mut_slice(), withdrawn);
        Ok(Roll {
            seats,
            names,
            title,
            withdrawn: marks,
        })
    }

    /// The same roll with these candidates withdrawn besides. A number may be listed more than once.
    pub fn with_struck(&self, alloc: Global, struck: &[u32]) -> Result<Roll, NoMemory>
        requires { All (λ c. (1 ≤ c) × (c ≤ length self.now.names)) struck.now }
        ensures { IfOk result (λ roll. roll ≡ record self.now { withdrawn = marks_with self.now.withdrawn struck.now }) }
    {
        let Ok(mut marks) = Vec::from_slice(alloc, self.withdrawn.as_slice()) else {
            return Err(NoMemory);
        };
        mark_listed(marks.as_mut_slice(), struck);
        Ok(Roll {
            seats: self.seats,
            names: self.names.copy(alloc)?,
            title: self.title.copy(alloc)?,
            withdrawn: marks,
        })
    }

    pub fn seats(&self) -> u32
        ensures value { result ≡ self.now.seats }
        ensures sound { IsRoll self.now }
    {
        self.seats
    }

    pub fn candidates(&self) -> u32
        ensures value { result ≡ length self.now.names }
        ensures sound { IsRoll self.now }
    {
        self.names.len() as u32
    }

    pub fn name(&self, c: u32) -> &Name<MOST_NAME_BYTES>
        requires { (1 ≤ c) × (c ≤ length self.now.names) }
        ensures { slice_get self.now.names (c - 1) ≡ Some result.now }
    {
        self.names.get((c - 1) as usize)
    }

    pub fn title(&self) -> &Name<MOST_TITLE_BYTES>
        ensures { result.now ≡ self.now.title }
    {
        &self.title
    }

    pub fn is_withdrawn(&self, c: u32) -> bool
        requires { (1 ≤ c) × (c ≤ length self.now.names) }
        ensures { result ≡ is_withdrawn self.now.withdrawn c }
    {
        self.withdrawn[(c - 1) as usize]
    }
}

fn mark_listed(marks: &mut [bool], listed: &[u32])
    requires { All (λ c. (1 ≤ c) × (c ≤ length marks.old)) listed.now }
    ensures { marks.new ≡ marks_with marks.old listed.now }
{
    for c in listed {
        marks[(*c - 1) as usize] = true;
    }
}
