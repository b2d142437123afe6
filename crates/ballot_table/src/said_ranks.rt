// What the ranks of a row say.
ghost use Rattle.std.specs.Prelude.{◌≡◌, ◌<◌, [], ◌∷◌, ◌++◌, List, Option, Some, None, OnOk, replicate, slice_get};
ghost use Rattle.std.specs.Option.{unwrap_or};
ghost use Rattle.ballot_marks.specs.declared.says.Says.{Says};
ghost use Rattle.ballot_table.specs.Said.{IsSaying};

use ballot_marks::{Mark, Marks, Says};
use plain_ballots::NoMemory;
use std::alloc::Global;
use std::marker::Model;

/// What the ranks of a row say, one after another, as marks. There is room for 4,294,967,295 ranks.
#[derive(Drop)]
pub(crate) struct SaidRanks {
    count: u32,
    last: u32,
    ranks: Vec<u32>,
    marks: Marks,
}

impl Model for SaidRanks {
    ghost use Rattle.std.specs.Prelude.{◌≤◌};
    ghost use Rattle.ballot_table.specs.Said.{SaidList};

    ghost Value = { SaidList };

    ghost view = { λ s. record { count = s.count; last = s.last; ranks = s.ranks.items; marks = s.marks } };

    ghost invariant = { λ s. s.last ≤ s.count };
}

impl SaidRanks {
    /// No rank yet.
    pub fn new(alloc: Global) -> SaidRanks
        ensures { IsSaying [] result }
    {
        SaidRanks {
            count: 0,
            last: 0,
            ranks: Vec::new(alloc),
            marks: Marks::new(alloc),
        }
    }

    pub fn clear(&mut self)
        ensures { IsSaying [] self.new }
    {
        self.count = 0;
        self.last = 0;
        self.ranks.clear();
        self.marks.clear();
    }

    /// The next rank says this, or is blank.
    pub fn push(&mut self, says: Option<Says>) -> Result<(), NoMemory>
        ensures { OnOk result ((before : List (Option Says)) → IsSaying before self.old → IsSaying (before ++ says ∷ []) self.new) }
    {
        if self.count == u32::MAX {
            return Err(NoMemory);
        }
        match says {
            Some(says) => self.push_mark(says),
            None => {
                self.count += 1;
                Ok(())
            }
        }
    }

    /// So many more ranks are blank.
    pub fn push_blanks(&mut self, more: usize) -> Result<(), NoMemory>
        ensures { OnOk result ((before : List (Option Says)) → IsSaying before self.old → IsSaying (before ++ replicate more None) self.new) }
    {
        if more > (u32::MAX - self.count) as usize {
            return Err(NoMemory);
        }
        self.count += more as u32;
        Ok(())
    }

    /// The next rank says this.
    fn push_mark(&mut self, says: Says) -> Result<(), NoMemory>
        requires { self.old.count < u32.MAX }
        ensures { OnOk result ((before : List (Option Says)) → IsSaying before self.old → IsSaying (before ++ Some says ∷ []) self.new) }
    {
        let rank = self.count + 1;
        let skipped = rank - self.last - 1;
        self.marks.push(Mark { skipped, says })?;
        if self.ranks.push(rank).is_err() {
            return Err(NoMemory);
        }
        self.count = rank;
        self.last = rank;
        Ok(())
    }

    /// The marks of the ranks that aren't blank.
    pub fn marks(&self) -> &[Mark]
        ensures { result.now ≡ self.now.marks }
    {
        self.marks.items()
    }

    /// The rank of the mark at a place, from 0.
    pub fn rank_at(&self, place: usize) -> u32
        ensures { result ≡ unwrap_or (slice_get self.now.ranks place) 0 }
    {
        match self.ranks.get(place) {
            Some(rank) => *rank,
            None => 0,
        }
    }
}
