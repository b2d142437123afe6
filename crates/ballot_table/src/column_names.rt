// The names of a table's columns.
ghost use Rattle.std.specs.Prelude.{◌≡◌, [], if◌then◌else◌, map, decimal, IfOk};
ghost use Rattle.std.specs.List.{range_with_len, slice_index_or};
ghost use Rattle.ballot_table.specs.ColumnNames.{lowest};
ghost use Rattle.ballot_table.specs.Rows.{is_empty};

use crate::{Text, Texts};
use itoa::Buffer;
use plain_ballots::NoMemory;
use std::alloc::Global;

/// The numbers of so many columns from 1, as names.
pub(crate) fn numbered(alloc: Global, columns: usize) -> Result<Texts, NoMemory>
    ensures { IfOk result (λ names. names ≡ map decimal (range_with_len 1 columns)) }
{
    let mut names = Texts::new(alloc);
    for column in 0..columns {
        names.push(number(alloc, column + 1)?)?;
    }
    Ok(names)
}

fn number(alloc: Global, n: usize) -> Result<Text, NoMemory>
    ensures { IfOk result (λ text. text ≡ decimal n) }
{
    let mut buffer = Buffer::new();
    Text::new(alloc, buffer.format(n).as_bytes())
}

/// The names of so many columns below the records of a head.
pub(crate) fn lowest_names(
    alloc: Global,
    columns: usize,
    records: &[Texts],
) -> Result<Texts, NoMemory>
    ensures { IfOk result (λ names. names ≡ map (lowest records.now) (range_with_len 0 columns)) }
{
    let mut names = Texts::new(alloc);
    for column in 0..columns {
        names.push(Text::new(alloc, lowest(records, column))?)?;
    }
    Ok(names)
}

/// The lowest text of a column, from 0, that isn't blank.
fn lowest(records: &[Texts], column: usize) -> &[u8]
    ensures { result.now ≡ lowest records.now column }
{
    let mut found: &[u8] = &[];
    for texts in records {
        found = lower(found, text_at(texts.items(), column));
    }
    found
}

/// A text below another, where it isn't blank.
fn lower<'t>(above: &'t [u8], text: &'t [u8]) -> &'t [u8]
    ensures { result.now ≡ (if is_empty text.now then above.now else text.now) }
{
    if text.is_empty() { above } else { text }
}

fn text_at(texts: &[Text], at: usize) -> &[u8]
    ensures { result.now ≡ slice_index_or texts.now at [] }
{
    match texts.get(at) {
        Some(text) => text.bytes(),
        None => &[],
    }
}
