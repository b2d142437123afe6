// The columns of a table.
ghost use Rattle.std.specs.Prelude.{◌≡◌, ◌↔◌, ◌-◌, ◌==◌, ◌≤◌, All, IfOk, IsTrue, length, map};
ghost use Rattle.std.specs.List.{position_or_len, range_with_len, slice_set};
ghost use Rattle.ballot_table.specs.Finding.{candidates_at};
ghost use Rattle.ballot_table.specs.Rows.{column_rank, places_of, ranks_at};

use crate::Column;
use plain_ballots::NoMemory;
use std::alloc::Global;
use std::marker::Model;

/// The columns of a table, from the left. Whether each of them is a candidate's, and at which place the column of each rank is,
/// is looked at once, for all rows.
#[derive(Drop)]
pub(crate) struct Columns<'a> {
    list: &'a [Column],
    all_are: bool,
    places: Vec<usize>,
}

impl<'a> Model for Columns<'a> {
    ghost use Rattle.std.specs.Prelude.{◌≡◌, ◌↔◌, All, IsTrue, List};
    ghost use Rattle.ballot_table.specs.declared.column.Column.{Column};
    ghost use Rattle.ballot_table.specs.Finding.{candidates_at};
    ghost use Rattle.ballot_table.specs.Rows.{places_of};

    ghost Value = { List Column };

    ghost view = { λ c. c.list.now };

    ghost invariant = { λ c. (IsTrue c.all_are ↔ All (λ column. candidates_at column ≡ 1) c.list.now)
        × (c.places.items ≡ places_of c.list.now) };
}

impl<'a> Columns<'a> {
    pub fn new(alloc: Global, list: &'a [Column]) -> Result<Self, NoMemory>
        ensures { IfOk result (λ columns. columns ≡ list.entry.now) }
    {
        let ranks = ranks_at(alloc, list)?;
        let places = places(alloc, &ranks)?;
        Ok(Columns {
            list,
            all_are: are_candidates(list),
            places,
        })
    }

    pub fn len(&self) -> usize
        ensures { result ≡ length self.now }
    {
        self.list.len()
    }

    pub fn items(&self) -> &[Column]
        ensures { result.now ≡ self.now }
    {
        self.list
    }

    /// For each rank from 1 the place of its column among those of ranks, from 0.
    pub fn places(&self) -> &[usize]
        ensures { result.now ≡ places_of self.now }
    {
        &self.places
    }

    /// Whether each column is a candidate's.
    pub fn are_candidates(&self) -> bool
        ensures { IsTrue result ↔ All (λ column. candidates_at column ≡ 1) self.now }
    {
        self.all_are
    }
}

/// Whether each column is a candidate's. All are looked at, several at once.
fn are_candidates(columns: &[Column]) -> bool
    ensures { IsTrue result ↔ All (λ column. candidates_at column ≡ 1) columns.now }
{
    let mut are_candidates = true;
    for column in columns {
        are_candidates &= is_candidate(*column);
    }
    are_candidates
}

fn is_candidate(column: Column) -> bool
    ensures { IsTrue result ↔ (candidates_at column ≡ 1) }
{
    match column {
        Column::Candidate(_) => true,
        Column::Weight | Column::PassedOver | Column::Rank(_) | Column::List => false,
    }
}

/// The ranks of columns of choices, from the left.
fn ranks_at(alloc: Global, columns: &[Column]) -> Result<Vec<u32>, NoMemory>
    ensures { IfOk result (λ ranks. ranks.items ≡ ranks_at columns.now) }
{
    let mut ranks = Vec::new(alloc);
    for column in columns {
        if let Some(rank) = column_rank(*column) {
            if ranks.push(rank).is_err() {
                return Err(NoMemory);
            }
        }
    }
    Ok(ranks)
}

fn column_rank(column: Column) -> Option<u32>
    ensures { result ≡ column_rank column }
{
    match column {
        Column::Rank(rank) => Some(rank),
        Column::Weight | Column::PassedOver | Column::Candidate(_) | Column::List => None,
    }
}

/// For each rank from 1 the place at which it is among ranks, from 0, or how many there are. It is found from the right, so
/// that the first place stays.
fn places(alloc: Global, ranks: &[u32]) -> Result<Vec<usize>, NoMemory>
    ensures { IfOk result (λ places. places.items
        ≡ map (λ rank. position_or_len (λ other. other == rank) ranks.now) (range_with_len 1 (length ranks.now))) }
{
    let Ok(mut places) = vec![in alloc; ranks.len(); ranks.len()] else {
        return Err(NoMemory);
    };
    let mut at = ranks.len();
    while at > 0 {
        at -= 1;
        place(&mut places, ranks[at], at);
    }
    Ok(places)
}

/// A rank is at a place.
fn place(places: &mut [usize], rank: u32, at: usize)
    ensures none { rank ≡ 0 → places.new ≡ places.old }
    ensures one { 1 ≤ rank → places.new ≡ slice_set places.old (rank - 1) at }
{
    if rank > 0 && rank as usize <= places.len() {
        places[rank as usize - 1] = at;
    }
}
