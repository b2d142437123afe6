// The rows of a table, one after another.
ghost use Rattle.std.specs.Prelude.{◌≡◌, ◌≤◌, ◌++◌, Err, [], length, sum_by, replicate, OnOk, OnErr, IfOk};
ghost use Rattle.plain_ballots.specs.declared.limits.TheConstants.{MOST_BALLOTS, MOST_CANDIDATES};
ghost use Rattle.plain_ballots.specs.Ballots.{plain};
ghost use Rattle.plain_ballots.specs.Ranking.{IsRanking};
ghost use Rattle.ballot_table.specs.Left.{TakesRow};
ghost use Rattle.ballot_table.specs.Report.{no_rows};
ghost use Rattle.ballot_table.specs.Asked.{asked_of};
ghost use Rattle.ballot_table.specs.Finding.{candidates_at, candidates_in};
ghost use Rattle.ballot_table.specs.Sheets.{row_at};

use crate::columns::Columns;
use crate::growing::GrowingBallots;
use crate::record_stop::RecordStop;
use crate::row::{JudgedRow, read_row};
use crate::row_cells::RowCells;
use crate::sheet::{Place, Sheet};
use crate::{Imported, TableAsked, TableStop, Tally};
use candidate_roll::Names;
use plain_ballots::{BallotLine, MOST_BALLOTS, NoMemory};
use std::alloc::Global;

/// What the rows of a table have come to so far.
#[derive(Drop)]
pub(crate) struct Rows {
    /// So many more ballots have room.
    pub room: u32,
    pub ballots: GrowingBallots,
    pub tally: Tally,
    cells: RowCells,
}

impl Rows {
    /// No row yet.
    pub fn new(alloc: Global, candidates: u32) -> Rows
        ensures room { result.room ≡ MOST_BALLOTS }
        ensures ballots { result.ballots ≡ record { candidates = candidates; lines = [] } }
        ensures tally { result.tally ≡ no_rows }
    {
        Rows {
            room: MOST_BALLOTS,
            ballots: GrowingBallots::new(alloc, candidates),
            tally: Tally::new(),
            cells: RowCells::new(alloc),
        }
    }

    /// Adds the ballots of the row at a place of a sheet.
    #[inline(always)]
    pub fn take(
        &mut self,
        alloc: Global,
        asked: &TableAsked,
        columns: &Columns<'_>,
        sheet: &Sheet<'_>,
        place: Place,
    ) -> Result<(), TableStop>
        requires room { self.old.room ≤ MOST_BALLOTS }
        requires names { length asked.now.candidates ≤ MOST_CANDIDATES }
        requires few { sum_by candidates_at columns.now ≤ MOST_CANDIDATES }
        requires candidates { candidates_in (asked_of asked.now) columns.now ≡ self.old.ballots.candidates }
        ensures { TakesRow asked.now columns.now (row_at sheet.now place) sheet.now.texts self.old result self.new }
    {
        match read_row(alloc, asked, self.room, columns, sheet, &mut self.cells) {
            Ok(Some(row)) => {
                self.room = self.room.saturating_sub(row.weight);
                let Ok(tally) = self.tally.with(&row) else {
                    return Err(TableStop::NoMemory);
                };
                self.tally = tally;
                push_row(&mut self.ballots, row)
            }
            Ok(None) => {
                let Ok(tally) = self.tally.with_dropped() else {
                    return Err(TableStop::NoMemory);
                };
                self.tally = tally;
                Ok(())
            }
            Err(RecordStop::Fault(fault)) => Err(sheet.stop_at(place, fault)),
            Err(RecordStop::NoMemory) => Err(TableStop::NoMemory),
        }
    }

    /// All that was read of a table of these candidates.
    pub fn imported(self, names: Names) -> Result<Imported, NoMemory>
        ensures { IfOk result (λ imported. imported ≡ record { names = names; ballots = self.ballots; tally = self.tally }) }
    {
        let Rows { ballots, tally, .. } = self;
        match ballots.finish() {
            Ok(ballots) => Ok(Imported {
                names,
                ballots,
                tally,
            }),
            Err(_) => Err(NoMemory),
        }
    }
}

/// Adds a row's ballots, where it stands for any.
#[inline(always)]
fn push_row(ballots: &mut GrowingBallots, row: JudgedRow) -> Result<(), TableStop>
    requires { IsRanking ballots.old.candidates row.treated.ranking }
    ensures added { OnOk result (plain ballots.new.lines ≡ plain ballots.old.lines ++ replicate row.count row.treated.ranking) }
    ensures candidates { OnOk result (ballots.new.candidates ≡ ballots.old.candidates) }
    ensures memory { OnErr result (result ≡ Err TableStop.NoMemory) }
{
    if row.count == 0 {
        return Ok(());
    }
    let line = BallotLine {
        count: row.count,
        ranking: row.treated.ranking,
    };
    match ballots.push(line) {
        Ok(()) => Ok(()),
        Err(_) => Err(TableStop::NoMemory),
    }
}
