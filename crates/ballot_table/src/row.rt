// A row of a table.
ghost use Rattle.std.specs.Prelude.{◌≡◌, ◌<◌, ◌≤◌, ◌+◌, min, position, false, length, sum_by, IfSome};
ghost use Rattle.plain_ballots.specs.declared.limits.TheConstants.{MOST_BALLOTS, MOST_CANDIDATES};
ghost use Rattle.ballot_table.specs.Asked.{asked_of};
ghost use Rattle.ballot_table.specs.Finding.{candidates_at};
ghost use Rattle.ballot_table.specs.JudgedRows.{Judges, ReadsRow};
ghost use Rattle.ballot_table.specs.JudgedRows.{refused_at};
ghost use Rattle.ballot_table.specs.Rows.{places_of};
ghost use Rattle.ballot_table.specs.Refusals.{kind_of, place_of, is_candidate, is_rank};

use crate::columns::Columns;
use crate::fault::Fault;
use crate::plain_row::plain_ranking;
use crate::record_stop::RecordStop;
use crate::row_cells::RowCells;
use crate::sheet::Sheet;
use crate::{Column, Empty, Layout, TableAsked, TableKind};
use ballot_marks::{TreatStop, Treated, Why, rankings_of_marks, treat, treatments_only_mend};
use plain_ballots::Ranking;
use std::alloc::Global;

/// What a row comes to: the number of ballots that it stands for, and their ranking.
#[derive(Drop)]
pub(crate) struct JudgedRow {
    /// The number in the weight's column, or 0.
    pub weight: u32,
    pub count: u32,
    pub treated: Treated,
}

/// What a row comes to, if it isn't dropped; so many more ballots have room.
#[inline(always)]
pub(crate) fn read_row(
    alloc: Global,
    asked: &TableAsked,
    room: u32,
    columns: &Columns<'_>,
    sheet: &Sheet<'_>,
    cells: &mut RowCells,
) -> Result<Option<JudgedRow>, RecordStop>
    requires names { length asked.now.candidates ≤ MOST_CANDIDATES }
    requires room { room ≤ MOST_BALLOTS }
    requires few { sum_by candidates_at columns.now ≤ MOST_CANDIDATES }
    ensures { ReadsRow (asked_of asked.now) asked.now.treatment asked.now.empty room columns.now sheet.now.texts result }
{
    if sheet.len() != columns.len() {
        return Err(RecordStop::Fault(unequal(sheet.len(), columns.len())));
    }
    if sheet.is_blank(alloc)? {
        match asked.empty {
            Empty::Refuse => return Err(RecordStop::Fault(empty_row())),
            Empty::Drop => return Ok(None),
            Empty::Keep => {}
        }
    }
    let row = judge(alloc, asked, room, columns, sheet, cells)?;
    Ok(Some(row))
}

// What a row comes to that isn't dropped: what is plain in one pass, and any other cell by cell.
#[inline(always)]
fn judge(
    alloc: Global,
    asked: &TableAsked,
    room: u32,
    columns: &Columns<'_>,
    sheet: &Sheet<'_>,
    cells: &mut RowCells,
) -> Result<JudgedRow, RecordStop>
    requires names { length asked.now.candidates ≤ MOST_CANDIDATES }
    requires room { room ≤ MOST_BALLOTS }
    requires few { sum_by candidates_at columns.now ≤ MOST_CANDIDATES }
    requires texts { length sheet.now.texts ≡ length columns.now }
    ensures { Judges (asked_of asked.now) asked.now.treatment room columns.now sheet.now.texts result }
{
    rankings_of_marks();
    treatments_only_mend();
    match plain_ranking(alloc, asked, columns, sheet)? {
        Some(ranking) => Ok(plain_row(ranking)),
        None => judge_cells(
            alloc,
            asked,
            room,
            columns.items(),
            columns.places(),
            sheet,
            cells,
        ),
    }
}

// One ballot of a ranking that its marks say plainly.
#[inline(always)]
fn plain_row(ranking: Ranking) -> JudgedRow
    ensures { result ≡ record {
      weight = 0;
      count = 1;
      treated = record { ranking = ranking; closed = false; passed = false; cut = false };
    } }
{
    JudgedRow {
        weight: 0,
        count: 1,
        treated: Treated {
            ranking,
            closed: false,
            passed: false,
            cut: false,
        },
    }
}

// What the cells of a row come to, where the columns of the ranks are at these places.
#[inline(never)]
fn judge_cells(
    alloc: Global,
    asked: &TableAsked,
    room: u32,
    columns: &[Column],
    places: &[usize],
    sheet: &Sheet<'_>,
    cells: &mut RowCells,
) -> Result<JudgedRow, RecordStop>
    requires names { length asked.now.candidates ≤ MOST_CANDIDATES }
    requires room { room ≤ MOST_BALLOTS }
    requires few { sum_by candidates_at columns.now ≤ MOST_CANDIDATES }
    requires places { places.now ≡ places_of columns.now }
    requires texts { length sheet.now.texts ≡ length columns.now }
    ensures { Judges (asked_of asked.now) asked.now.treatment room columns.now sheet.now.texts result }
{
    cells.read(alloc, asked, room, columns, sheet)?;
    cells.say(asked.layout, places)?;
    let candidates = asked.among(cells.holders.candidates());
    match treat(alloc, cells.said.marks(), &asked.treatment, candidates) {
        Ok(treated) => Ok(JudgedRow {
            weight: cells.count.unwrap_or(0),
            count: cells.count.unwrap_or(1),
            treated,
        }),
        Err(TreatStop::NoMemory) => Err(RecordStop::NoMemory),
        Err(TreatStop::Refused { place, why }) => Err(RecordStop::Fault(Fault {
            kind: kind_of(why),
            place: refused_column(asked.layout, columns, cells, place, why),
        })),
    }
}

// The column at which the mark at a place, from 0, is refused.
fn refused_column(
    layout: Layout,
    columns: &[Column],
    cells: &RowCells,
    place: usize,
    why: Why,
) -> usize
    ensures { result ≡ refused_at layout columns.now cells.now place why }
{
    let rank = cells.said.rank_at(place);
    match layout {
        Layout::Ranks => place_of_candidate(columns, cells.holders.at(rank).refused(why)),
        Layout::Choices | Layout::List => place_of_rank(columns, rank),
    }
}

fn kind_of(why: Why) -> TableKind
    ensures { result ≡ kind_of why }
{
    match why {
        Why::SkippedRank => TableKind::SkippedRank,
        Why::EqualRank => TableKind::EqualRank,
        Why::Repeated => TableKind::Repeated,
    }
}

/// The place of a candidate's column, from 1.
fn place_of_candidate(columns: &[Column], candidate: u32) -> usize
    ensures { result ≡ place_of (is_candidate candidate) columns.now }
{
    match candidate_column(columns, candidate) {
        Some(at) => at + 1,
        None => 1,
    }
}

fn candidate_column(columns: &[Column], candidate: u32) -> Option<usize>
    ensures at { result ≡ position (is_candidate candidate) columns.now }
    ensures inside { IfSome result (λ at. at < length columns.now) }
{
    columns
        .iter()
        .position(|column| is_candidate(candidate, *column))
}

fn is_candidate(candidate: u32, column: Column) -> bool
    ensures { result ≡ is_candidate candidate column }
{
    match column {
        Column::Candidate(other) => other == candidate,
        Column::Weight | Column::PassedOver | Column::Rank(_) | Column::List => false,
    }
}

/// The place of a rank's column, or of the lists', from 1.
fn place_of_rank(columns: &[Column], rank: u32) -> usize
    ensures { result ≡ place_of (is_rank rank) columns.now }
{
    match rank_column(columns, rank) {
        Some(at) => at + 1,
        None => 1,
    }
}

fn rank_column(columns: &[Column], rank: u32) -> Option<usize>
    ensures at { result ≡ position (is_rank rank) columns.now }
    ensures inside { IfSome result (λ at. at < length columns.now) }
{
    columns.iter().position(|column| is_rank(rank, *column))
}

fn is_rank(rank: u32, column: Column) -> bool
    ensures { result ≡ is_rank rank column }
{
    match column {
        Column::Rank(other) => other == rank,
        Column::List => true,
        Column::Weight | Column::PassedOver | Column::Candidate(_) => false,
    }
}

fn unequal(fields: usize, columns: usize) -> Fault
    requires { min fields columns < usize.MAX }
    ensures { result ≡ record { kind = TableKind.UnequalRow; place = min fields columns + 1 } }
{
    Fault {
        kind: TableKind::UnequalRow,
        place: if fields < columns { fields } else { columns } + 1,
    }
}

fn empty_row() -> Fault
    ensures { result ≡ record { kind = TableKind.EmptyRow; place = 1 } }
{
    Fault {
        kind: TableKind::EmptyRow,
        place: 1,
    }
}
