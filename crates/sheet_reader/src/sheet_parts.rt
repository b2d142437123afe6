// A sheet that is read part by part.
ghost use Rattle.std.specs.Prelude.{◌≡◌, ◌≤◌, ◌∷◌, ◌++◌, List, All, codes, length, MatchResult};
ghost use Rattle.std.specs.List.{FoldsTo};
ghost use Rattle.plain_ballots.specs.declared.limits.TheConstants.{MOST_CANDIDATES};
ghost use Rattle.meek_rule.specs.Row.{Row as Iteration, HasRoomFor};
ghost use Rattle.sheet_reader.specs.Form.{HasForm, IsPrintableRow};
ghost use Rattle.sheet_reader.specs.Parts.{NoRows, rows_lines};
ghost use Rattle.sheet_reader.specs.Refusal.{Stops};
ghost use Rattle.sheet_reader.specs.Values.{SheetList};

use crate::SheetStop;
use crate::head::read_head;
use crate::lines::{Lines, is_ended};
use crate::outcomes::read_end;
use crate::row_reader::read_row;
use crate::row_sink::RowSink;
use candidate_roll::{MOST_TITLE_BYTES, Name, Names, States};
use line_text::Line;
use meek_rule::Row;
use std::alloc::Global;

/// What is in a sheet around its iterations.
#[derive(Drop)]
pub(crate) struct SheetParts {
    pub title: Name<MOST_TITLE_BYTES>,
    pub seats: u32,
    pub ballots: u32,
    pub names: Names,
    pub last: States,
}

/// Reads a sheet of `P` places from its title to its end, and hands on each iteration.
pub(crate) fn read_parts<const P: usize, K: RowSink<P>>(
    alloc: Global,
    bytes: &[u8],
    sink: &mut K,
) -> Result<SheetParts, SheetStop>
    requires places { (6 ≤ P) × (P ≤ 9) }
    ensures { MatchResult result
        (λ parts. (rows : List Iteration) × FoldsTo K.takes sink.old rows sink.new × HasForm P bytes.now (record {
          title = parts.title;
          seats = parts.seats;
          ballots = parts.ballots;
          names = parts.names;
          rows = rows;
          last = parts.last;
        }))
        (λ stop. Stops stop ((values : SheetList) → ¬ (HasForm P bytes.now values))) }
{
    if !is_ended(bytes) {
        return Err(SheetStop::Malformed);
    }
    let mut lines = Lines::new(bytes);
    let head = read_head(alloc, &mut lines)?;
    read_rows::<P, K>(alloc, &mut lines, head.candidates, sink)?;
    let (last, names) = read_end(alloc, &mut lines, head.candidates as usize)?;
    Ok(SheetParts {
        title: head.title,
        seats: head.seats,
        ballots: head.ballots,
        names,
        last,
    })
}

/// Hands on all iterations of so many candidates, up to the line of the result.
fn read_rows<const P: usize, K: RowSink<P>>(
    alloc: Global,
    lines: &mut Lines<'_>,
    candidates: u32,
    sink: &mut K,
) -> Result<(), SheetStop>
    requires places { (6 ≤ P) × (P ≤ 9) }
    requires few { candidates ≤ MOST_CANDIDATES }
    ensures { MatchResult result
        (λ _. (rows : List Iteration) × FoldsTo K.takes sink.old rows sink.new
        × All (IsPrintableRow P candidates) rows × (lines.old ≡ rows_lines P rows ++ codes "result" ∷ lines.new))
        (λ stop. Stops stop (NoRows P candidates lines.old)) }
{
    let Ok(mut row) = Row::<P>::new(alloc, candidates) else {
        return Err(SheetStop::NoMemory);
    };
    read_rows_into::<P, K>(alloc, lines, &mut row, sink)
}

/// Hands on all iterations up to the line of the result, each read into this row.
fn read_rows_into<const P: usize, K: RowSink<P>>(
    alloc: Global,
    lines: &mut Lines<'_>,
    row: &mut Row<P>,
    sink: &mut K,
) -> Result<(), SheetStop>
    requires places { (6 ≤ P) × (P ≤ 9) }
    requires room { HasRoomFor (length row.old.states) row.old }
    requires few { length row.old.states ≤ MOST_CANDIDATES }
    ensures { MatchResult result
        (λ _. (rows : List Iteration) × FoldsTo K.takes sink.old rows sink.new
        × All (IsPrintableRow P (length row.old.states)) rows × (lines.old ≡ rows_lines P rows ++ codes "result" ∷ lines.new))
        (λ stop. Stops stop (NoRows P (length row.old.states) lines.old)) }
{
    let mut line = Line::new();
    while !lines.skips(b"result") {
        if !read_row::<P>(lines, &mut line, row) {
            return Err(SheetStop::Malformed);
        }
        let Ok(()) = sink.take(alloc, row) else {
            return Err(SheetStop::NoMemory);
        };
    }
    Ok(())
}
