// What the words say of a table and its columns.
ghost use Rattle.std.specs.Prelude.{◌≡◌, IfOk};
ghost use Rattle.import_words.specs.Asks.{SaysTable};
ghost use Rattle.import_words.specs.Values.{given_by};
ghost use Rattle.import_words.specs.declared.table_words.TableWords.{TableWords};

use crate::cells::append;
use crate::different::are_different;
use crate::values::Values;
use crate::{HeadNames, HeadWords, Label, Labels, Separator, reading, settings};
use meek_words::WordsStop;
use std::alloc::Global;

/// What the words say of a table's fields and columns.
#[derive(Debug, Drop)]
pub struct TableWords {
    /// Where none is said, the table shows it.
    pub separator: Option<Separator>,
    pub names: HeadNames,
    pub head: HeadWords,
    /// The head of the column that says for how many ballots a row stands.
    pub weight: Option<Label>,
    /// The heads of the columns that are not read.
    pub ignored: Labels,
    /// The heads of the columns of the ranks from the first on; where there are none, all columns are read that have no label.
    pub chosen: Labels,
    /// The heads of the first two in the order of the words, and then those of the third.
    pub columns: Labels,
}

impl TableWords {
    pub(crate) fn read(alloc: Global, values: &Values<'_>) -> Result<TableWords, WordsStop>
        ensures accepted { IfOk result (λ table. SaysTable (given_by values.now) table) }
        ensures refused { result ≡ Err WordsStop.BadWords
            → (table : TableWords) → ¬ (SaysTable (given_by values.now) table) }
    {
        let separator = settings::separator(values.separator).ok_or(WordsStop::BadWords)?;
        let names = settings::head_names(values.names).ok_or(WordsStop::BadWords)?;
        let head = settings::head_words(values.head).ok_or(WordsStop::BadWords)?;
        let weight = reading::weight(alloc, values.weight)?;
        let ignored = reading::labels(alloc, values.ignored.as_slice())?;
        let mut columns = reading::labels(alloc, values.columns.as_slice())?;
        let chosen = reading::ranks(alloc, values.chosen)?;
        append(alloc, &mut columns, chosen.items())?;
        if !are_different(columns.items()) {
            return Err(WordsStop::BadWords);
        }
        Ok(TableWords {
            separator,
            names,
            head,
            weight,
            ignored,
            chosen,
            columns,
        })
    }
}
