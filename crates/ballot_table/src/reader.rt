// The reader of tables.
ghost use Rattle.std.specs.Prelude.{◌≡◌, ◌≤◌, [], Some, None, Ok, length, sum_by, OnOk, IfOk, IfErr};
ghost use Rattle.plain_ballots.specs.declared.limits.TheConstants.{MOST_BALLOTS, MOST_CANDIDATES};
ghost use Rattle.table_text.specs.Reading.{read_text};
ghost use Rattle.ballot_table.specs.Imported.{IsImported, IsTableStop, refusal, separator};
ghost use Rattle.ballot_table.specs.Left.{Reads, ReadsRows, TakesRows};
ghost use Rattle.ballot_table.specs.Report.{no_rows};
ghost use Rattle.ballot_table.specs.Asked.{asked_of};
ghost use Rattle.ballot_table.specs.Finding.{candidates_at, candidates_in};

use crate::column_names::{lowest_names, numbered};
use crate::columns::Columns;
use crate::head::Head;
use crate::head_records::HeadRecords;
use crate::named_head::NamedHead;
use crate::rows::Rows;
use crate::sheet::Sheet;
use crate::{Imported, TableAsked, TableStop};
use std::alloc::Global;
use table_text::find_separator;

/// The ballots of a table, or why it is refused.
pub fn read_table(alloc: Global, asked: &TableAsked, bytes: &[u8]) -> Result<Imported, TableStop>
    requires names { length asked.now.candidates ≤ MOST_CANDIDATES }
    ensures imported { IfOk result (IsImported asked.now bytes.now) }
    ensures sound { OnOk result (refusal asked.now bytes.now ≡ None) }
    ensures stop { IfErr result (IsTableStop (refusal asked.now bytes.now)) }
{
    match separator(asked, bytes) {
        Ok(separator) => read_separated(alloc, asked, bytes, separator),
        Err(stop) => Err(stop),
    }
}

// What a text comes to whose fields this byte separates. Without a head its first record is looked at before it is read as a row.
fn read_separated(
    alloc: Global,
    asked: &TableAsked,
    bytes: &[u8],
    separator: u8,
) -> Result<Imported, TableStop>
    requires { length asked.now.candidates ≤ MOST_CANDIDATES }
    ensures { Reads asked.now (read_text separator bytes.now) result }
{
    let mut sheet = Sheet::new(alloc, bytes, separator);
    if asked.heads == 0 {
        let mut rows = Sheet::new(alloc, bytes, separator);
        read_numbered(alloc, asked, &mut sheet, &mut rows)
    } else {
        read_headed(alloc, asked, &mut sheet)
    }
}

// What the rows come to that are still to come, where there is no head: the first record of a sheet has as many fields as
// there are columns.
fn read_numbered(
    alloc: Global,
    asked: &TableAsked,
    sheet: &mut Sheet<'_>,
    rows: &mut Sheet<'_>,
) -> Result<Imported, TableStop>
    requires names { length asked.now.candidates ≤ MOST_CANDIDATES }
    requires none { asked.now.heads ≡ 0 }
    requires same { rows.old.records.rest ≡ sheet.old.records.rest }
    ensures { Reads asked.now sheet.old.records.rest result }
{
    let place = match sheet.next() {
        Ok(Some(place)) => place,
        Ok(None) => return Err(TableStop::NoMemory),
        Err(stop) => return Err(stop),
    };
    let Ok(names) = numbered(alloc, sheet.len()) else {
        return Err(TableStop::NoMemory);
    };
    match NamedHead::read(alloc, asked, names.items(), sheet, place) {
        Ok(head) => read_rows(alloc, asked, head, rows),
        Err(stop) => Err(stop),
    }
}

// What the records come to that are still to come, of which the first are the head.
fn read_headed(
    alloc: Global,
    asked: &TableAsked,
    sheet: &mut Sheet<'_>,
) -> Result<Imported, TableStop>
    requires names { length asked.now.candidates ≤ MOST_CANDIDATES }
    requires some { 1 ≤ asked.now.heads }
    ensures { Reads asked.now sheet.old.records.rest result }
{
    let records = match HeadRecords::read(alloc, asked, sheet) {
        Ok(records) => records,
        Err(stop) => return Err(stop),
    };
    let Ok(names) = lowest_names(alloc, sheet.len(), records.texts.as_slice()) else {
        return Err(TableStop::NoMemory);
    };
    match NamedHead::read(alloc, asked, names.items(), sheet, records.place) {
        Ok(head) => read_rows(alloc, asked, head, sheet),
        Err(stop) => Err(stop),
    }
}

// What the rows come to that are still to come, under a head without a fault.
fn read_rows(
    alloc: Global,
    asked: &TableAsked,
    named: NamedHead,
    sheet: &mut Sheet<'_>,
) -> Result<Imported, TableStop>
    requires names { length asked.now.candidates ≤ MOST_CANDIDATES }
    requires few { sum_by candidates_at named.head.columns.items ≤ MOST_CANDIDATES }
    requires candidates { candidates_in (asked_of asked.now) named.head.columns.items ≡ named.head.candidates }
    requires named { named.head.candidates ≡ length named.names }
    ensures { ReadsRows asked.now named.head.columns.items named.names sheet.old.records.rest result }
{
    let NamedHead { head, names } = named;
    let mut taken = Rows::new(alloc, head.candidates);
    match take_rows(alloc, asked, &head, sheet, &mut taken) {
        Ok(()) => match taken.imported(names) {
            Ok(imported) => Ok(imported),
            Err(_) => Err(TableStop::NoMemory),
        },
        Err(stop) => Err(stop),
    }
}

fn separator(asked: &TableAsked, bytes: &[u8]) -> Result<u8, TableStop>
    ensures byte { IfOk result (λ byte. separator asked.now.separator bytes.now ≡ Ok byte) }
    ensures stop { IfErr result (λ stop. refusal asked.now bytes.now ≡ Some stop) }
{
    match asked.separator {
        Some(separator) => Ok(separator),
        None => match find_separator(bytes) {
            Ok(separator) => Ok(separator),
            Err(fault) => Err(TableStop::Text(fault)),
        },
    }
}

// Takes in the rows that are still to come, after no row.
fn take_rows(
    alloc: Global,
    asked: &TableAsked,
    head: &Head,
    sheet: &mut Sheet<'_>,
    taken: &mut Rows,
) -> Result<(), TableStop>
    requires names { length asked.now.candidates ≤ MOST_CANDIDATES }
    requires few { sum_by candidates_at head.now.columns.items ≤ MOST_CANDIDATES }
    requires candidates { candidates_in (asked_of asked.now) head.now.columns.items ≡ taken.old.ballots.candidates }
    requires room { taken.old.room ≡ MOST_BALLOTS }
    requires ballots { taken.old.ballots.lines ≡ [] }
    requires tally { taken.old.tally ≡ no_rows }
    ensures { TakesRows asked.now head.now.columns.items sheet.old.records.rest taken.old result taken.new }
{
    match Columns::new(alloc, head.columns.as_slice()) {
        Ok(columns) => take_each(alloc, asked, &columns, sheet, taken),
        Err(_) => Err(TableStop::NoMemory),
    }
}

// The same, under these columns.
fn take_each(
    alloc: Global,
    asked: &TableAsked,
    columns: &Columns<'_>,
    sheet: &mut Sheet<'_>,
    taken: &mut Rows,
) -> Result<(), TableStop>
    requires names { length asked.now.candidates ≤ MOST_CANDIDATES }
    requires few { sum_by candidates_at columns.now ≤ MOST_CANDIDATES }
    requires candidates { candidates_in (asked_of asked.now) columns.now ≡ taken.old.ballots.candidates }
    requires room { taken.old.room ≡ MOST_BALLOTS }
    requires ballots { taken.old.ballots.lines ≡ [] }
    requires tally { taken.old.tally ≡ no_rows }
    ensures { TakesRows asked.now columns.now sheet.old.records.rest taken.old result taken.new }
{
    'rows: loop {
        match sheet.next() {
            Ok(Some(place)) => match taken.take(alloc, asked, columns, sheet, place) {
                Ok(()) => {}
                Err(stop) => return Err(stop),
            },
            Ok(None) => return Ok(()),
            Err(stop) => return Err(stop),
        }
    }
}
