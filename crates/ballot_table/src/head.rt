// The head of a table.
ghost use Rattle.std.specs.Prelude.{ℕ, List, ◌≡◌, ◌≢◌, ◌+◌, ◌-◌, ◌<◌, ◌≤◌, ◌^◌, replicate, ◌==◌, ◌||◌, ◌&&◌, not, nat_lt, false, true};
ghost use Rattle.std.specs.Prelude.{◌++◌, ◌∷◌, [], length, map, position, sum_by, Some, None, OnOk, IfOk};
ghost use Rattle.std.specs.Prelude.{IfErr, IfSome};
ghost use Rattle.std.specs.List.{list_all, list_any, slice_index_or};
ghost use Rattle.std.specs.Result.{is_ok};
ghost use Rattle.ballot_table.specs.Cells.{says_in};
ghost use Rattle.ballot_table.specs.declared.column.Column.TheVariants.{Rank};
ghost use Rattle.std.specs.Option.{option_or};
ghost use Rattle.std.specs.Str.{bytes_eq};
ghost use Rattle.plain_ballots.specs.declared.limits.TheConstants.{MOST_CANDIDATES};
ghost use Rattle.ballot_table.specs.Faults.{first_fault};
ghost use Rattle.ballot_table.specs.Head.{column_of, columns_of, is_cell, next_column, name_of, name_fault, names_of, rank_said, said_column};
ghost use Rattle.ballot_table.specs.Head.{unlabelled, no_column, column_expected, bad_withdrawn, head_fault};
ghost use Rattle.ballot_table.specs.JudgedRows.{IsRowStop};
ghost use Rattle.ballot_table.specs.Asked.{asked_of};
ghost use Rattle.ballot_table.specs.Finding.{candidates_at, other_at, among, named_by, with_seen, IsHead, IsNext, IsSeen, IsSeenBy, IsShape};
ghost use Rattle.ballot_table.specs.Texts.{is_in, parts};

use crate::among::is_in;
use crate::edges::trimmed;
use crate::fault::Fault;
use crate::record_stop::RecordStop;
use crate::said_number::rank_said;
use crate::shape::Shape;
use crate::{Column, Layout, TableAsked, TableKind, Text};
use candidate_roll::{Name, Names};
use plain_ballots::{MOST_CANDIDATES, NoMemory};
use std::alloc::Global;

/// The columns of a table, how many of their heads are no labels, and how many candidates there are.
#[derive(Drop)]
pub(crate) struct Head {
    pub columns: Vec<Column>,
    others: u32,
    pub candidates: u32,
}

impl Head {
    /// The head of these texts, or its first fault.
    pub fn read(alloc: Global, asked: &TableAsked, texts: &[Text]) -> Result<Head, RecordStop>
        requires names { length asked.now.candidates ≤ MOST_CANDIDATES }
        ensures stop { IfErr result (IsRowStop (head_fault (asked_of asked.now) texts.now)) }
        ensures sound { OnOk result (head_fault (asked_of asked.now) texts.now ≡ None) }
        ensures head { IfOk result (IsHead (asked_of asked.now) texts.now) }
    {
        let head = Head::columns(alloc, asked, texts)?;
        match head.finish(asked, texts) {
            Ok(()) => Ok(head),
            Err(fault) => Err(RecordStop::Fault(fault)),
        }
    }

    // There is no room for more columns than have numbers.
    fn columns(alloc: Global, asked: &TableAsked, texts: &[Text]) -> Result<Head, RecordStop>
        requires names { length asked.now.candidates ≤ MOST_CANDIDATES }
        ensures stop { IfErr result (IsRowStop (first_fault (columns_of (asked_of asked.now) texts.now))) }
        ensures sound { OnOk result (first_fault (columns_of (asked_of asked.now) texts.now) ≡ None) }
        ensures head { IfOk result (IsHead (asked_of asked.now) texts.now) }
    {
        if texts.len() > i32::MAX as usize || asked.chosen.len() > i32::MAX as usize {
            return Err(RecordStop::NoMemory);
        }
        let shape = Shape::of(asked, texts);
        let mut seen = unseen(alloc, shape.others)?;
        let mut columns = Vec::new(alloc);
        let mut others = 0;
        for (at, text) in texts.iter().enumerate() {
            match column_of(asked, &shape, &seen, &texts[..at], others, text.bytes()) {
                Ok(column) => {
                    others += other_at(asked, text.bytes());
                    see(&mut seen, column);
                    if columns.push(column).is_err() {
                        return Err(RecordStop::NoMemory);
                    }
                }
                Err(kind) => return Err(RecordStop::Fault(fault_at(kind, at))),
            }
        }
        Ok(Head {
            columns,
            others,
            candidates: asked.among(others),
        })
    }

    /// What a head has to have besides columns that are sound each.
    fn finish(&self, asked: &TableAsked, texts: &[Text]) -> Result<(), Fault>
        requires others { self.now.others ≡ length (unlabelled (asked_of asked.now) texts.now) }
        requires names { self.now.candidates ≡ length (names_of (asked_of asked.now) texts.now) }
        ensures fault { IfErr result (λ fault. option_or (no_column (asked_of asked.now) texts.now)
            (option_or (column_expected (asked_of asked.now) texts.now) (bad_withdrawn (asked_of asked.now) texts.now)) ≡ Some fault) }
        ensures sound { OnOk result (option_or (no_column (asked_of asked.now) texts.now)
            (option_or (column_expected (asked_of asked.now) texts.now) (bad_withdrawn (asked_of asked.now) texts.now)) ≡ None) }
    {
        if let Some(place) = missing(asked.labels.items(), texts) {
            return Err(fault_at(TableKind::NoColumn, place));
        }
        if self.others == 0 && !asked.are_chosen() {
            return Err(Fault {
                kind: TableKind::ColumnExpected,
                place: texts.len() + 1,
            });
        }
        match no_candidate(asked.withdrawn.items(), self.candidates) {
            Some(place) => Err(fault_at(TableKind::BadWithdrawn, place)),
            None => Ok(()),
        }
    }
}

/// One where a text is no label.
fn other_at(asked: &TableAsked, text: &[u8]) -> u32
    ensures { result ≡ other_at (asked_of asked.now) text.now }
{
    if asked.is_label(text) { 0 } else { 1 }
}

/// The first label that no text is.
fn missing(labels: &[Text], texts: &[Text]) -> Option<usize>
    ensures place { result ≡ position (λ label. not (is_in texts.now label)) labels.now }
    ensures inside { IfSome result (λ place. place < length labels.now) }
{
    labels.iter().position(|label| !is_in(texts, label.bytes()))
}

/// The first number that none of so many candidates has.
fn no_candidate(numbers: &[u32], candidates: u32) -> Option<usize>
    ensures place { result ≡ position (λ n. n == 0 || nat_lt candidates n) numbers.now }
    ensures inside { IfSome result (λ place. place < length numbers.now) }
{
    numbers.iter().position(|n| *n == 0 || *n > candidates)
}

fn fault_at(kind: TableKind, i: usize) -> Fault
    requires { i < usize.MAX }
    ensures { result ≡ record { kind = kind; place = i + 1 } }
{
    Fault { kind, place: i + 1 }
}

/// None of so many ranks was seen.
fn unseen(alloc: Global, ranks: u32) -> Result<Vec<bool>, NoMemory>
    ensures { IfOk result (λ seen. seen.items ≡ replicate ranks false) }
{
    match vec![in alloc; false; ranks as usize] {
        Ok(seen) => Ok(seen),
        Err(_) => Err(NoMemory),
    }
}

/// The column of a rank was seen.
fn see(seen: &mut Vec<bool>, column: Column)
    ensures { seen.new.items ≡ with_seen column seen.old.items }
{
    if let Column::Rank(rank) = column {
        let at = rank.saturating_sub(1) as usize;
        if at < seen.len() {
            seen[at] = true;
        }
    }
}

/// The column of a text of a head after these texts, of which so many are no labels.
fn column_of(
    asked: &TableAsked,
    shape: &Shape<'_>,
    seen: &[bool],
    before: &[Text],
    others: u32,
    text: &[u8],
) -> Result<Column, TableKind>
    requires names { length asked.now.candidates ≤ MOST_CANDIDATES }
    requires shape { IsShape (asked_of asked.now) shape.now.texts.now shape.now }
    requires seen { IsSeenBy (asked_of asked.now) shape.now.texts.now before.now seen.now }
    requires counted { others ≡ length (unlabelled (asked_of asked.now) before.now) }
    requires few { named_by asked.now.layout others ≤ MOST_CANDIDATES }
    requires room { others < u32.MAX }
    requires chosen { length asked.now.chosen < 2 ^ 31 }
    ensures column { result ≡ column_of (asked_of asked.now) shape.now.texts.now before.now text.now }
    ensures next { IfOk result (IsNext (asked_of asked.now) others text.now) }
{
    if asked.is_label(text) {
        label_column(asked, shape, before, text)
    } else if !asked.head_is_said && is_cell(asked, shape, text) {
        Err(TableKind::HeadExpected)
    } else {
        next_column(asked, shape, seen, before, others, text)
    }
}

fn label_column(
    asked: &TableAsked,
    shape: &Shape<'_>,
    before: &[Text],
    text: &[u8],
) -> Result<Column, TableKind>
    requires label { is_in asked.now.labels text.now ≡ true }
    requires chosen { length asked.now.chosen < 2 ^ 31 }
    ensures column { result ≡ column_of (asked_of asked.now) shape.now.texts.now before.now text.now }
    ensures named { IfOk result (λ column. candidates_at column ≡ 0) }
{
    if is_in(before, text) {
        Err(TableKind::RepeatedColumn)
    } else {
        Ok(asked.labelled(text))
    }
}

/// Whether a head reads as a cell of its column.
fn is_cell(asked: &TableAsked, shape: &Shape<'_>, text: &[u8]) -> bool
    requires names { length asked.now.candidates ≤ MOST_CANDIDATES }
    requires shape { IsShape (asked_of asked.now) shape.now.texts.now shape.now }
    ensures { result ≡ is_cell asked.now.layout (asked_of asked.now) shape.now.texts.now text.now }
{
    match asked.layout {
        Layout::Ranks => shape.may_be_ranks,
        Layout::Choices => !asked.are_chosen() && asked.may_be_said(text),
        Layout::List => is_list(asked, text),
    }
}

/// Whether each part of a text may be said by a part of a list.
fn is_list(asked: &TableAsked, text: &[u8]) -> bool
    requires { length asked.now.candidates ≤ MOST_CANDIDATES }
    ensures { result ≡ list_all (λ part. is_ok (says_in (asked_of asked.now) part)) (parts text.now) }
{
    for part in text.split(|b| *b == b';') {
        if !asked.may_be_said(trimmed(part)) {
            return false;
        }
    }
    true
}

/// The column of a text that is no label.
fn next_column(
    asked: &TableAsked,
    shape: &Shape<'_>,
    seen: &[bool],
    before: &[Text],
    others: u32,
    text: &[u8],
) -> Result<Column, TableKind>
    requires shape { IsShape (asked_of asked.now) shape.now.texts.now shape.now }
    requires seen { IsSeenBy (asked_of asked.now) shape.now.texts.now before.now seen.now }
    requires counted { others ≡ length (unlabelled (asked_of asked.now) before.now) }
    requires few { named_by asked.now.layout others ≤ MOST_CANDIDATES }
    requires room { others < u32.MAX }
    ensures column { result ≡ next_column asked.now.layout (asked_of asked.now) shape.now.texts.now (unlabelled (asked_of asked.now) before.now) text.now }
    ensures named { IfOk result (λ column. candidates_at column ≡ named_by asked.now.layout 1) }
    ensures few { OnOk result (named_by asked.now.layout (others + 1) ≤ MOST_CANDIDATES) }
{
    match asked.layout {
        Layout::Choices if asked.are_chosen() => Ok(Column::PassedOver),
        Layout::Choices if shape.say_ranks => said_column(shape.others, seen, text),
        Layout::Choices => Ok(Column::Rank(others + 1)),
        Layout::List if others == 0 => Ok(Column::List),
        Layout::List => Err(TableKind::TooManyColumns),
        Layout::Ranks => match name_fault(asked, before, others, asked.name_of(text)) {
            Some(kind) => Err(kind),
            None => Ok(Column::Candidate(others + 1)),
        },
    }
}

/// The column of the rank that its head says among so many, where it wasn't seen before.
fn said_column(ranks: u32, seen: &[bool], text: &[u8]) -> Result<Column, TableKind>
    requires { ranks < 2 ^ 31 }
    ensures column { (before : List (List ℕ)) → IsSeen ranks before seen.now → result ≡ said_column ranks before text.now }
    ensures rank { IfOk result (λ column. column ≡ Rank (rank_said ranks text.now)) }
{
    let rank = rank_said(ranks, text);
    if rank == 0 || is_seen(seen, rank) {
        Err(TableKind::BadColumns)
    } else {
        Ok(Column::Rank(rank))
    }
}

fn is_seen(seen: &[bool], rank: u32) -> bool
    ensures { result ≡ slice_index_or seen.now (rank - 1) false }
{
    let at = rank.saturating_sub(1) as usize;
    if at < seen.len() { seen[at] } else { false }
}

/// Why a name is none, or one too many.
fn name_fault(
    asked: &TableAsked,
    before: &[Text],
    candidates: u32,
    name: &[u8],
) -> Option<TableKind>
    requires { candidates ≡ length (unlabelled (asked_of asked.now) before.now) }
    ensures fault { result ≡ name_fault (map (name_of (asked_of asked.now)) (unlabelled (asked_of asked.now) before.now)) name.now }
    ensures few { result ≡ None → candidates < MOST_CANDIDATES }
{
    match name {
        [] => Some(TableKind::NameExpected),
        _ => bad_name(asked, before, candidates, name),
    }
}

fn bad_name(asked: &TableAsked, before: &[Text], candidates: u32, name: &[u8]) -> Option<TableKind>
    requires counted { candidates ≡ length (unlabelled (asked_of asked.now) before.now) }
    requires some { 1 ≤ length name.now }
    ensures fault { result ≡ name_fault (map (name_of (asked_of asked.now)) (unlabelled (asked_of asked.now) before.now)) name.now }
    ensures few { result ≡ None → candidates < MOST_CANDIDATES }
{
    if has_bad_byte(name) {
        Some(TableKind::BadName)
    } else if name.len() > 200 {
        Some(TableKind::TooLongName)
    } else if is_named(asked, before, name) {
        Some(TableKind::RepeatedColumn)
    } else if candidates >= MOST_CANDIDATES {
        Some(TableKind::TooManyCandidates)
    } else {
        None
    }
}

fn has_bad_byte(name: &[u8]) -> bool
    ensures { result ≡ list_any (λ c. nat_lt c 32 || c == 34) name.now }
{
    name.iter().any(|b| *b < b' ' || *b == b'"')
}

/// Whether a head's text that is no label says this name.
#[tactic(auto, using(crate::proofs::HeadLemmas::named_is))]
fn is_named(asked: &TableAsked, before: &[Text], name: &[u8]) -> bool
    ensures { result ≡ is_in (map (name_of (asked_of asked.now)) (unlabelled (asked_of asked.now) before.now)) name.now }
{
    some_says(asked, before, name)
}

fn some_says(asked: &TableAsked, texts: &[Text], name: &[u8]) -> bool
    ensures { result ≡ list_any (λ other. not (is_in asked.now.labels other) && bytes_eq (name_of (asked_of asked.now) other) name.now) texts.now }
{
    texts.iter().any(|other| says(asked, other, name))
}

fn says(asked: &TableAsked, text: &Text, name: &[u8]) -> bool
    ensures { result ≡ (not (is_in asked.now.labels text.now) && bytes_eq (name_of (asked_of asked.now) text.now) name.now) }
{
    !asked.is_label(text.bytes()) && asked.name_of(text.bytes()) == name
}

/// The names of the candidates, by a sound head or by the words.
pub(crate) fn names(alloc: Global, asked: &TableAsked, texts: &[Text]) -> Result<Names, NoMemory>
    ensures { IfOk result (λ names. names ≡ names_of (asked_of asked.now) texts.now) }
{
    match asked.layout {
        Layout::Ranks => head_names(alloc, asked, texts),
        Layout::Choices | Layout::List => match asked.candidates.copy(alloc) {
            Ok(names) => Ok(names),
            Err(_) => Err(NoMemory),
        },
    }
}

/// The names that a sound head says.
fn head_names(alloc: Global, asked: &TableAsked, texts: &[Text]) -> Result<Names, NoMemory>
    ensures { IfOk result (λ names. names ≡ map (name_of (asked_of asked.now)) (unlabelled (asked_of asked.now) texts.now)) }
{
    let mut names = Names::new(alloc);
    for text in texts {
        if !asked.is_label(text.bytes()) {
            push_name(alloc, &mut names, asked.name_of(text.bytes()))?;
        }
    }
    Ok(names)
}

fn push_name(alloc: Global, names: &mut Names, bytes: &[u8]) -> Result<(), NoMemory>
    ensures { OnOk result (names.new ≡ names.old ++ bytes.now ∷ []) }
{
    match Name::<200>::try_new(alloc, bytes) {
        Ok(name) => match names.push(name) {
            Ok(()) => Ok(()),
            Err(_) => Err(NoMemory),
        },
        Err(_) => Err(NoMemory),
    }
}
