// Ballots to be written.
ghost use Rattle.std.specs.Prelude.{◌≡◌, ◌≤◌, [], ◌∷◌, ◌++◌, IfOk, OnOk, IsPermutation, length};
ghost use Rattle.plain_ballots.specs.declared.limits.TheConstants.{MOST_BALLOTS};
ghost use Rattle.frozen_plan.specs.Plan.{all_ballots};
ghost use Rattle.blt_writer.specs.Merge.{AreInOrder, all_plain};
ghost use Rattle.blt_writer.specs.Written.{WritesText};

use crate::NoMemory;
use crate::cursor::Cursor;
use crate::file::{write_closing, write_opening};
use crate::merge::write_merged;
use crate::ranks::Ranks;
use byte_edge::{Failed, Sink};
use candidate_roll::Roll;
use frozen_plan::Plans;
use std::alloc::Global;
use std::marker::Model;

/// The ballots of plans under a roll, on their way into a file.
#[derive(Drop)]
pub struct Export<'e> {
    roll: &'e Roll,
    cursors: Vec<Cursor>,
    ranking: Ranks,
}

impl<'e> Model for Export<'e> {
    ghost use Rattle.std.specs.Prelude.{◌≤◌, length};
    ghost use Rattle.plain_ballots.specs.declared.limits.TheConstants.{MOST_BALLOTS};
    ghost use Rattle.blt_writer.specs.Exported.{Exported};
    ghost use Rattle.blt_writer.specs.Merge.{AreInOrder, all_plain};

    ghost Value = { Exported };

    ghost view = { λ e. record { roll = e.roll.now; ballots = all_plain e.cursors.items } };

    ghost invariant = { λ e. AreInOrder e.cursors.items × (length (all_plain e.cursors.items) ≤ MOST_BALLOTS) };
}

impl<'e> Export<'e> {
    /// An export of the ballots of all plans. All its memory is taken here.
    pub fn begin(alloc: Global, roll: &'e Roll, plans: Plans) -> Result<Export<'e>, NoMemory>
        requires few { length (all_ballots plans) ≤ MOST_BALLOTS }
        ensures roll { IfOk result (λ export. export.roll ≡ roll.entry.now) }
        ensures ballots { IfOk result (λ export. IsPermutation export.ballots (all_ballots plans)) }
    {
        let cursors = cursors_of(alloc, plans)?;
        Ok(Export {
            roll,
            cursors,
            ranking: Ranks::new(),
        })
    }
}

/// A cursor for each plan.
fn cursors_of(alloc: Global, plans: Plans) -> Result<Vec<Cursor>, NoMemory>
    ensures order { IfOk result (λ cursors. AreInOrder cursors.items) }
    ensures ballots { IfOk result (λ cursors. IsPermutation (all_plain cursors.items) (all_ballots plans)) }
{
    let mut cursors = Vec::with_capacity(alloc, plans.len())?;
    let mut others = plans;
    while let Some(plan) = others.pop() {
        cursors.push(Cursor::begin(plan))?;
    }
    Ok(cursors)
}

/// Writes the file of an export's ballots under its roll, and takes no memory. Ok leaves no ballots to be
/// written.
pub fn write_blt<K: Sink>(export: &mut Export<'_>, sink: &mut K) -> Result<(), Failed>
    ensures { WritesText K.written K.faults sink.old sink.new export.old result }
{
    write_opening(export.roll, sink)?;
    write_merged(export.cursors.as_mut_slice(), &mut export.ranking, sink)?;
    write_closing(export.roll, sink)
}
