// The marks of a ballot.
ghost use Rattle.std.specs.Prelude.{◌≡◌, [], ◌∷◌, ◌++◌, length, OnOk, OnErr};

use crate::Mark;
use plain_ballots::NoMemory;
use std::alloc::Global;
use std::marker::Model;

/// The marks of a ballot by rising rank. Whoever reads many ballots can read each of them into the same list.
#[derive(Debug, Drop)]
pub struct Marks {
    list: Vec<Mark>,
}

impl Model for Marks {
    ghost use Rattle.std.specs.Prelude.{List};
    ghost use Rattle.ballot_marks.specs.declared.mark.Mark.{Mark};

    ghost Value = { List Mark };

    ghost view = { λ m. m.list.items };
}

impl Marks {
    pub fn new(alloc: Global) -> Marks
        ensures { result ≡ [] }
    {
        Marks {
            list: Vec::new(alloc),
        }
    }

    pub fn push(&mut self, mark: Mark) -> Result<(), NoMemory>
        ensures ok { OnOk result (self.new ≡ self.old ++ mark ∷ []) }
        ensures refused { OnErr result (self.new ≡ self.old) }
    {
        match self.list.push(mark) {
            Ok(()) => Ok(()),
            Err(_) => Err(NoMemory),
        }
    }

    /// Takes all marks out, and keeps their room.
    pub fn clear(&mut self)
        ensures { self.new ≡ [] }
    {
        self.list.clear();
    }

    pub fn len(&self) -> usize
        ensures { result ≡ length self.now }
    {
        self.list.len()
    }

    pub fn items(&self) -> &[Mark]
        ensures { result.now ≡ self.now }
    {
        self.list.as_slice()
    }
}
