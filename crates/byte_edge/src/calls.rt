// The calls that a source or a sink in memory was given, by number, and those that are to fail.
ghost use Rattle.std.specs.Prelude.{◌≡◌, ◌↔◌, IsTrue, IsErr};
ghost use Rattle.byte_edge.specs.Faults.{Rose, CountsFault};
ghost use Rattle.byte_edge.specs.Scripts.{none_made, next_count, with_call, IsNextToFail};

use crate::Failed;
use std::marker::Model;

#[derive(Drop)]
pub(crate) struct CallCount {
    failing: Vec<u64>,
    made: u64,
    faults: u64,
}

impl Model for CallCount {
    ghost use Rattle.byte_edge.specs.Scripts.{Calls};

    ghost Value = { Calls };

    ghost view = { λ c. record { failing = c.failing.items; made = c.made; faults = c.faults } };
}

impl CallCount {
    pub(crate) fn new(failing: Vec<u64>) -> Self
        ensures { result ≡ none_made failing.items }
    {
        CallCount {
            failing,
            made: 0,
            faults: 0,
        }
    }

    // Counts a call, which fails where its number is one of those told.
    pub(crate) fn begin(&mut self) -> Result<(), Failed>
        ensures failing { IsErr result ↔ IsNextToFail self.old }
        ensures calls { self.new ≡ with_call self.old result }
        ensures faults { CountsFault self.old.faults self.new.faults result }
    {
        self.made = self.made.saturating_add(1);
        if self.failing.contains(&self.made) {
            return Err(self.fail());
        }
        Ok(())
    }

    pub(crate) fn fail(&mut self) -> Failed
        ensures faults { self.new ≡ record self.old { faults = next_count self.old.faults } }
        ensures rose { Rose self.old.faults self.new.faults }
    {
        self.faults = self.faults.saturating_add(1);
        Failed
    }
}
