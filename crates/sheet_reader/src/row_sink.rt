// What the iterations of a sheet are handed to.
ghost use Rattle.std.specs.Prelude.{◌≤◌, ⊤, length, OnOk};
ghost use Rattle.plain_ballots.specs.declared.limits.TheConstants.{MOST_CANDIDATES};
ghost use Rattle.meek_rule.specs.Row.{Row as Iteration, HasRoomFor};

use meek_rule::{NoMemory, Row};
use std::alloc::Global;

/// What iterations are handed to, one after another, as they are read.
pub(crate) trait RowSink<const P: usize> {
    /// what taking an iteration makes of it
    ghost takes: { Self → Iteration → Self → Type 0 };

    /// Takes the iteration that is in the row. The next one is read into what it leaves there, which
    /// has as much room.
    fn take(&mut self, alloc: Global, row: &mut Row<P>) -> Result<(), NoMemory>
        requires places { (6 ≤ P) × (P ≤ 9) }
        requires room { HasRoomFor (length row.old.states) row.old }
        requires few { length row.old.states ≤ MOST_CANDIDATES }
        ensures taken { OnOk result (takes self.old row.old self.new) }
        ensures room { OnOk result (HasRoomFor (length row.old.states) row.new) };
}

/// Keeps no iteration, so that a sheet of many takes no more memory than a sheet of one.
#[derive(Drop)]
pub(crate) struct KeepNone;

impl<const P: usize> RowSink<P> for KeepNone {
    ghost takes = { λ _ _ _. ⊤ };

    fn take(&mut self, _: Global, _: &mut Row<P>) -> Result<(), NoMemory> {
        Ok(())
    }
}
