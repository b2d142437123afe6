// What the words say of the cells that are marks.
ghost use Rattle.std.specs.Prelude.{◌≡◌, ◌++◌, IfOk, OnOk, OnErr, All};
ghost use Rattle.import_words.specs.Asks.{AreDistinguished, SaysCells};
ghost use Rattle.import_words.specs.Labels.{IsLabel};
ghost use Rattle.import_words.specs.Values.{given_by};
ghost use Rattle.import_words.specs.declared.cells.CellWords.{CellWords};

use crate::different::are_different;
use crate::values::Values;
use crate::{Label, Labels, reading};
use candidate_roll::{MOST_NAME_BYTES, Name};
use meek_words::WordsStop;
use std::alloc::Global;

/// What the words say of the cells that are marks.
#[derive(Debug, Drop)]
pub struct CellWords {
    /// What is in a cell without a mark.
    pub blanks: Labels,
    /// What is in a cell for more than one candidate.
    pub overs: Labels,
    /// What stands for the ranks from the first on; where there are none, ranks are numbers.
    pub ranks: Labels,
}

impl CellWords {
    pub(crate) fn read(alloc: Global, values: &Values<'_>) -> Result<CellWords, WordsStop>
        ensures accepted { IfOk result (λ cells. SaysCells (given_by values.now) cells) }
        ensures refused { result ≡ Err WordsStop.BadWords
            → (cells : CellWords) → ¬ (SaysCells (given_by values.now) cells) }
    {
        Ok(CellWords {
            blanks: reading::labels(alloc, values.blanks.as_slice())?,
            overs: reading::labels(alloc, values.overs.as_slice())?,
            ranks: reading::ranks(alloc, values.ranks)?,
        })
    }

    /// Tests that the candidates' names are labels, and that no two cells that differ say the same.
    pub(crate) fn distinguish(
        &self,
        alloc: Global,
        candidates: &[Name<MOST_NAME_BYTES>],
    ) -> Result<(), WordsStop>
        ensures accepted { OnOk result (AreDistinguished self.now candidates.now) }
        ensures refused { result ≡ Err WordsStop.BadWords → ¬ (AreDistinguished self.now candidates.now) }
    {
        let mut all = Labels::new(alloc);
        append(alloc, &mut all, self.blanks.items())?;
        append(alloc, &mut all, self.overs.items())?;
        append_names(alloc, &mut all, candidates)?;
        append(alloc, &mut all, self.ranks.items())?;
        if are_different(all.items()) {
            Ok(())
        } else {
            Err(WordsStop::BadWords)
        }
    }
}

/// Puts labels after others.
pub(crate) fn append(alloc: Global, all: &mut Labels, labels: &[Label]) -> Result<(), WordsStop>
    ensures ok { OnOk result (all.new ≡ all.old ++ labels.now) }
    ensures memory { OnErr result (result ≡ Err WordsStop.NoMemory) }
{
    for label in labels {
        all.push(label.copy(alloc)?)?;
    }
    Ok(())
}

/// Puts names after labels, where they are labels too.
fn append_names(
    alloc: Global,
    all: &mut Labels,
    names: &[Name<MOST_NAME_BYTES>],
) -> Result<(), WordsStop>
    ensures ok { OnOk result ((all.new ≡ all.old ++ names.now) × All IsLabel names.now) }
    ensures refused { result ≡ Err WordsStop.BadWords → ¬ (All IsLabel names.now) }
{
    for name in names {
        all.push(Label::try_new(alloc, name.bytes())?)?;
    }
    Ok(())
}
