// The ranks of a row's candidates.
ghost use Rattle.std.specs.Prelude.{◌≡◌, ◌<◌, ◌≤◌, ◌+◌, ◌-◌, ℕ, List, [], ◌∷◌, ◌++◌, length, map, Option, Some, OnOk};
ghost use Rattle.std.specs.List.{slice_index_or};
ghost use Rattle.plain_ballots.specs.declared.limits.TheConstants.{MOST_CANDIDATES};
ghost use Rattle.ballot_table.specs.declared.held.Held.TheVariants.{Nobody};
ghost use Rattle.ballot_table.specs.Held.{IsFreeFrom, IsHolding, says_held};
ghost use Rattle.ballot_table.specs.Said.{IsSaying};

use crate::held::Held;
use crate::said_ranks::SaidRanks;
use plain_ballots::{MOST_CANDIDATES, NoMemory};
use std::marker::Model;

const ROOM: usize = MOST_CANDIDATES as usize;

/// Who has each rank of a row, as far as it is read. It takes no memory of its own. Nobody has a rank after the first `used`,
/// so that few ranks are looked at where few are used.
#[derive(Drop)]
pub(crate) struct Holders {
    candidates: u32,
    used: usize,
    held: [Held; ROOM],
}

impl Model for Holders {
    ghost use Rattle.std.specs.Prelude.{◌≤◌};
    ghost use Rattle.plain_ballots.specs.declared.limits.TheConstants.{MOST_CANDIDATES};
    ghost use Rattle.ballot_table.specs.Held.{HolderList, IsFreeFrom};

    ghost Value = { HolderList };

    ghost view = { λ h. record { candidates = h.candidates; held = h.held } };

    ghost invariant = { λ h. (h.used ≤ MOST_CANDIDATES) × IsFreeFrom h.used h.held };
}

impl Holders {
    /// No candidate yet.
    pub fn new() -> Holders
        ensures { IsHolding [] result }
    {
        Holders {
            candidates: 0,
            used: 0,
            held: [Held::Nobody; ROOM],
        }
    }

    /// No candidate again.
    pub fn clear(&mut self)
        ensures { IsHolding [] self.new }
    {
        vacate(&mut self.held, self.used);
        self.used = 0;
        self.candidates = 0;
    }

    /// How many candidates there are.
    pub fn candidates(&self) -> u32
        ensures { result ≡ self.now.candidates }
    {
        self.candidates
    }

    /// The next candidate has this rank, or none.
    pub fn put(&mut self, rank: Option<usize>)
        requires { self.old.candidates < MOST_CANDIDATES }
        ensures counted { self.new.candidates ≡ self.old.candidates + 1 }
        ensures holding { (ranks : List (Option ℕ)) → IsHolding ranks self.old → IsHolding (ranks ++ rank ∷ []) self.new }
    {
        match rank {
            Some(rank) => self.hold(rank),
            None => self.candidates += 1,
        }
    }

    /// The next candidate has this rank.
    fn hold(&mut self, rank: usize)
        requires { self.old.candidates < MOST_CANDIDATES }
        ensures counted { self.new.candidates ≡ self.old.candidates + 1 }
        ensures holding { (ranks : List (Option ℕ)) → IsHolding ranks self.old → IsHolding (ranks ++ Some rank ∷ []) self.new }
    {
        self.candidates += 1;
        if 1 <= rank && rank <= ROOM {
            self.held[rank - 1] = self.held[rank - 1].with(self.candidates);
            self.used = greater(self.used, rank);
        }
    }

    /// What each rank says, in place of what was said.
    pub fn say(&self, said: &mut SaidRanks) -> Result<(), NoMemory>
        ensures { OnOk result (IsSaying (map says_held self.now.held) said.new) }
    {
        say(&self.held, self.used, said)
    }

    /// Who has a rank.
    pub fn at(&self, rank: u32) -> Held
        ensures { result ≡ slice_index_or self.now.held (rank - 1) Nobody }
    {
        let at = rank.saturating_sub(1) as usize;
        if at < ROOM {
            self.held[at]
        } else {
            Held::Nobody
        }
    }
}

/// The greater of two numbers.
pub(crate) fn greater(a: usize, b: usize) -> usize
    ensures one { a ≤ result }
    ensures other { b ≤ result }
    ensures least { (n : ℕ) → a ≤ n → b ≤ n → result ≤ n }
{
    if a < b { b } else { a }
}

// Nobody has one of the first ranks any more, where nobody has one after them.
fn vacate(held: &mut [Held], used: usize)
    requires inside { used ≤ length held.old }
    requires free { IsFreeFrom used held.old }
    ensures long { length held.new ≡ length held.old }
    ensures free { IsFreeFrom 0 held.new }
{
    for i in 0..used {
        held[i] = Held::Nobody;
    }
}

// What those say who have each rank, in place of what was said, where nobody has one after so many.
fn say(held: &[Held], used: usize, said: &mut SaidRanks) -> Result<(), NoMemory>
    requires inside { used ≤ length held.now }
    requires free { IsFreeFrom used held.now }
    ensures { OnOk result (IsSaying (map says_held held.now) said.new) }
{
    said.clear();
    say_each(&held[..used], said)?;
    said.push_blanks(held.len() - used)?;
    Ok(())
}

// What those say who have each rank, after nothing.
fn say_each(ranks: &[Held], said: &mut SaidRanks) -> Result<(), NoMemory>
    requires { IsSaying [] said.old }
    ensures { OnOk result (IsSaying (map says_held ranks.now) said.new) }
{
    for held in ranks {
        said.push(held.says())?;
    }
    Ok(())
}
