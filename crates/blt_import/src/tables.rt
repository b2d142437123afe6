// From the words to what the reader of tables is asked.
ghost use Rattle.std.specs.Prelude.{◌≡◌, ◌++◌, IfOk, OnOk};
ghost use Rattle.std.specs.Option.{option_map};
ghost use Rattle.blt_import.specs.Forms.{byte_of, empty_of, is_bracketed, is_head_said, named_for, records_of, with_lists, without_lists};

use ballot_table::{Empty, Layout, Numbers, TableAsked, Text, Texts};
use candidate_roll::Names;
use import_words::{Asked, EmptyRows, HeadNames, HeadWords, Label, Separator};
use plain_ballots::NoMemory;
use std::alloc::Global;

/// What the words say of a table of this layout, but for what they list.
pub(crate) fn without_lists(alloc: Global, asked: &Asked, layout: Layout) -> TableAsked
    ensures { result ≡ without_lists asked.now layout }
{
    TableAsked {
        layout,
        separator: separator_of(asked.table.separator),
        head_is_said: is_head_said(asked.table.head),
        heads: records_of(asked.table.head),
        bracketed: is_bracketed(asked.table.names),
        labels: Texts::new(alloc),
        chosen: Texts::new(alloc),
        weight: None,
        blank: Texts::new(alloc),
        over: Texts::new(alloc),
        ranks: Texts::new(alloc),
        candidates: Names::new(alloc),
        withdrawn: Numbers::new(alloc),
        empty: empty_of(asked.empty),
        treatment: asked.treatment,
    }
}

/// Puts what the words list after what is there.
pub(crate) fn fill(alloc: Global, asked: &Asked, table: &mut TableAsked) -> Result<(), NoMemory>
    ensures { OnOk result (table.new ≡ with_lists asked.now table.old) }
{
    table.weight = text_of(alloc, &asked.table.weight)?;
    table.candidates = named_for(alloc, table.layout, &asked.roll.candidates)?;
    push_texts(alloc, &mut table.labels, asked.table.columns.items())?;
    push_texts(alloc, &mut table.chosen, asked.table.chosen.items())?;
    push_texts(alloc, &mut table.blank, asked.cells.blanks.items())?;
    push_texts(alloc, &mut table.over, asked.cells.overs.items())?;
    push_texts(alloc, &mut table.ranks, asked.cells.ranks.items())?;
    push_numbers(&mut table.withdrawn, asked.roll.withdrawn.items())
}

/// The candidates whom the words name, where the head doesn't.
fn named_for(alloc: Global, layout: Layout, names: &Names) -> Result<Names, NoMemory>
    ensures { IfOk result (λ named. named ≡ named_for layout names.now) }
{
    match layout {
        Layout::Ranks => Ok(Names::new(alloc)),
        Layout::Choices | Layout::List => match names.copy(alloc) {
            Ok(names) => Ok(names),
            Err(_) => Err(NoMemory),
        },
    }
}

fn separator_of(separator: Option<Separator>) -> Option<u8>
    ensures { result ≡ option_map byte_of separator }
{
    match separator {
        Some(Separator::Comma) => Some(b','),
        Some(Separator::Semicolon) => Some(b';'),
        Some(Separator::Tab) => Some(b'\t'),
        None => None,
    }
}

fn is_bracketed(names: HeadNames) -> bool
    ensures { result ≡ is_bracketed names }
{
    matches!(names, HeadNames::Bracketed)
}

/// Whether it is said that there is a head, whatever is in it, or that there is none.
fn is_head_said(head: HeadWords) -> bool
    ensures { result ≡ is_head_said head }
{
    match head {
        HeadWords::Unsaid => false,
        HeadWords::Absent | HeadWords::Records(_) => true,
    }
}

/// How many records are the head.
fn records_of(head: HeadWords) -> u32
    ensures { result ≡ records_of head }
{
    match head {
        HeadWords::Unsaid => 1,
        HeadWords::Absent => 0,
        HeadWords::Records(records) => records,
    }
}

fn empty_of(empty: EmptyRows) -> Empty
    ensures { result ≡ empty_of empty }
{
    match empty {
        EmptyRows::Refuse => Empty::Refuse,
        EmptyRows::Keep => Empty::Keep,
        EmptyRows::LeaveOut => Empty::Drop,
    }
}

fn text_of(alloc: Global, label: &Option<Label>) -> Result<Option<Text>, NoMemory>
    ensures { IfOk result (λ text. text ≡ label.now) }
{
    match label {
        Some(label) => Ok(Some(Text::new(alloc, label.bytes())?)),
        None => Ok(None),
    }
}

fn push_texts(alloc: Global, texts: &mut Texts, labels: &[Label]) -> Result<(), NoMemory>
    ensures { OnOk result (texts.new ≡ texts.old ++ labels.now) }
{
    for label in labels {
        let text = Text::new(alloc, label.bytes())?;
        texts.push(text)?;
    }
    Ok(())
}

fn push_numbers(numbers: &mut Numbers, typed: &[u32]) -> Result<(), NoMemory>
    ensures { OnOk result (numbers.new ≡ numbers.old ++ typed.now) }
{
    for number in typed {
        numbers.push(*number)?;
    }
    Ok(())
}
