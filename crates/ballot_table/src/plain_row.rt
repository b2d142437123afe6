// Rows of ranks that are plain.
ghost use Rattle.std.specs.Prelude.{◌≡◌, ◌≢◌, ◌↔◌, length, All, IfOk, IfSome, IsTrue};
ghost use Rattle.ballot_table.specs.Asked.{asked_of};
ghost use Rattle.ballot_table.specs.PlainRows.{IsPlaced, IsPlainRow};

use crate::TableAsked;
use crate::columns::Columns;
use crate::sheet::Sheet;
use plain_ballots::{MOST_CANDIDATES, NoMemory, Ranking};
use std::alloc::Global;
use table_text::{Cell, NO_NUMBER};

/// No short number is as great, and no rank of a plain row.
const RANKS: usize = NO_NUMBER as usize;

/// The ranking of a row of ranks that is plain: each of its columns is a candidate's, each of its cells is empty or a short
/// number, and each of the first ranks has one candidate. It is found in one pass, and of any other row nothing is said.
#[inline(always)]
pub(crate) fn plain_ranking(
    alloc: Global,
    asked: &TableAsked,
    columns: &Columns<'_>,
    sheet: &Sheet<'_>,
) -> Result<Option<Ranking>, NoMemory>
    requires texts { length sheet.now.texts ≡ length columns.now }
    ensures { IfOk result (λ found. IfSome found (IsPlainRow (asked_of asked.now) columns.now sheet.now.texts)) }
{
    if !asked.has_plain_ranks() || !columns.are_candidates() {
        return Ok(None);
    }
    let mut placed = [0u32; RANKS];
    let Some(ranked) = place_each(sheet.cells(), &mut placed) else {
        return Ok(None);
    };
    if ranked >= RANKS {
        return Ok(None);
    }
    let ranks = &placed[1..ranked + 1];
    if !are_held(ranks) {
        return Ok(None);
    }
    let ranking = Ranking::new(alloc, ranks)?;
    Ok(Some(ranking))
}

/// Puts the candidate of each cell at its rank, in place of whoever is there, and gives how many have one. Of those with one
/// rank the last stays, and what is at 0 is of no matter.
#[inline(always)]
fn place_each(cells: &[Cell], placed: &mut [u32; RANKS]) -> Option<usize>
    requires { All (λ c. c ≡ 0) placed.old }
    ensures { IfSome result (IsPlaced cells.now placed.new) }
{
    if cells.len() > MOST_CANDIDATES as usize {
        return None;
    }
    let mut ranked = 0;
    for (at, cell) in cells.iter().enumerate() {
        let rank = cell.number as usize;
        if rank >= RANKS {
            return None;
        }
        placed[rank] = at as u32 + 1;
        ranked += usize::from(rank != 0);
    }
    Some(ranked)
}

/// Whether somebody has each of some ranks. All are looked at, several at once.
fn are_held(ranks: &[u32]) -> bool
    ensures { IsTrue result ↔ All (λ c. c ≢ 0) ranks.now }
{
    let mut are_held = true;
    for c in ranks {
        are_held &= *c != 0;
    }
    are_held
}
