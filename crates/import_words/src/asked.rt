// What the words ask for.
ghost use Rattle.std.specs.Prelude.{◌≡◌, ◌↔◌, IfOk, IsTrue};
ghost use Rattle.import_words.specs.Asks.{AreEnough, Says};
ghost use Rattle.import_words.specs.Values.{given_by};
ghost use Rattle.import_words.specs.declared.asked.Asked.{Asked};

use crate::reading::MOST;
use crate::values::Values;
use crate::{CellWords, EmptyRows, Layout, Output, RollWords, TableWords, settings};
use ballot_marks::Treatment;
use candidate_roll::Names;
use meek_words::WordsStop;
use std::alloc::Global;

/// What the words ask for: how a table of ballots is read, and what is written of it.
#[derive(Debug, Drop)]
pub struct Asked {
    pub layout: Layout,
    pub output: Output,
    pub empty: EmptyRows,
    /// Of skipped ranks, of ranks that more than one candidate has, and of repeated candidates.
    pub treatment: Treatment,
    pub roll: RollWords,
    pub table: TableWords,
    pub cells: CellWords,
}

impl Asked {
    pub(crate) fn read(alloc: Global, values: &Values<'_>) -> Result<Asked, WordsStop>
        ensures accepted { IfOk result (λ asked. Says (given_by values.now) asked) }
        ensures refused { result ≡ Err WordsStop.BadWords
            → (asked : Asked) → ¬ (Says (given_by values.now) asked) }
    {
        let layout = settings::layout(values.layout).ok_or(WordsStop::BadWords)?;
        let output = settings::output(values.output).ok_or(WordsStop::BadWords)?;
        let empty = settings::empty_rows(values.empty).ok_or(WordsStop::BadWords)?;
        let treatment = settings::treatment(values).ok_or(WordsStop::BadWords)?;
        let roll = RollWords::read(alloc, values)?;
        if !are_enough(layout, &roll.candidates) {
            return Err(WordsStop::BadWords);
        }
        let table = TableWords::read(alloc, values)?;
        let cells = CellWords::read(alloc, values)?;
        cells.distinguish(alloc, roll.candidates.items())?;
        Ok(Asked {
            layout,
            output,
            empty,
            treatment,
            roll,
            table,
            cells,
        })
    }
}

/// Whether there are candidates, where the layout has to be told of them.
fn are_enough(layout: Layout, candidates: &Names) -> bool
    ensures { IsTrue result ↔ AreEnough layout candidates.now }
{
    match layout {
        Layout::Choices | Layout::List => 1 <= candidates.len() && candidates.len() <= MOST,
        Layout::Ranks | Layout::Preflib => true,
    }
}
