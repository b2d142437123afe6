// The cells of a row, one after another.
ghost use Rattle.std.specs.Prelude.{◌≡◌, ◌+◌, ◌≤◌, [], None, length, map, sum_by, OnOk, IfErr};
ghost use Rattle.plain_ballots.specs.declared.limits.TheConstants.{MOST_BALLOTS, MOST_CANDIDATES};
ghost use Rattle.ballot_table.specs.Asked.{asked_of};
ghost use Rattle.ballot_table.specs.Cells.{counted, all_of, fault_one, says_in};
ghost use Rattle.ballot_table.specs.Faults.{first_fault, sound_one};
ghost use Rattle.ballot_table.specs.Finding.{candidates_at, AreTaken, IsCellStop, IsSaidBy, SaysAll, TakesCell};
ghost use Rattle.ballot_table.specs.Held.{IsHolding};
ghost use Rattle.ballot_table.specs.JudgedRows.{IsRowStop};
ghost use Rattle.ballot_table.specs.Rows.{at_places, cells_of};
ghost use Rattle.std.specs.List.{slice_index_or};
ghost use Rattle.ballot_table.specs.Said.{IsSaying};
ghost use Rattle.ballot_table.specs.Texts.{number, parts};

use crate::cell_stop::CellStop;
use crate::edges::trimmed;
use crate::fault::Fault;
use crate::holders::Holders;
use crate::numeral::{Numeral, numeral_in};
use crate::record_stop::RecordStop;
use crate::said_ranks::SaidRanks;
use crate::sheet::Sheet;
use crate::{Column, Layout, TableAsked, TableKind};
use ballot_marks::Says;
use plain_ballots::NoMemory;
use std::alloc::Global;

/// What the cells of a row say: the number of ballots in the weight's column, where there is one, who has each rank, and
/// what each rank says. Whoever reads many rows can read each of them into the same.
#[derive(Drop)]
pub(crate) struct RowCells {
    pub count: Option<u32>,
    pub holders: Holders,
    /// What the columns of ranks say, from the left.
    pub chosen: Vec<Option<Says>>,
    pub said: SaidRanks,
}

impl RowCells {
    /// No cell yet.
    pub fn new(alloc: Global) -> RowCells
        ensures count { result.count ≡ None }
        ensures holding { IsHolding [] result.holders }
        ensures chosen { result.chosen.items ≡ [] }
        ensures saying { IsSaying [] result.said }
    {
        RowCells {
            count: None,
            holders: Holders::new(),
            chosen: Vec::new(alloc),
            said: SaidRanks::new(alloc),
        }
    }

    /// Takes out what was read of another row.
    fn clear(&mut self)
        ensures count { self.new.count ≡ None }
        ensures holding { IsHolding [] self.new.holders }
        ensures chosen { self.new.chosen.items ≡ [] }
        ensures saying { IsSaying [] self.new.said }
    {
        self.count = None;
        self.holders.clear();
        self.chosen.clear();
        self.said.clear();
    }

    /// Reads the cells of a row for which so many more ballots have room, or gives the first fault of one.
    pub fn read(
        &mut self,
        alloc: Global,
        asked: &TableAsked,
        room: u32,
        columns: &[Column],
        sheet: &Sheet<'_>,
    ) -> Result<(), RecordStop>
        requires names { length asked.now.candidates ≤ MOST_CANDIDATES }
        requires room { room ≤ MOST_BALLOTS }
        requires few { sum_by candidates_at columns.now ≤ MOST_CANDIDATES }
        requires texts { length sheet.now.texts ≡ length columns.now }
        ensures stop { IfErr result (IsRowStop (first_fault (cells_of (asked_of asked.now) room columns.now sheet.now.texts))) }
        ensures sound { OnOk result (first_fault (cells_of (asked_of asked.now) room columns.now sheet.now.texts) ≡ None) }
        ensures taken { OnOk result (AreTaken (asked_of asked.now) room columns.now sheet.now.texts self.new) }
    {
        self.clear();
        for (at, column) in columns.iter().enumerate() {
            let field = sheet.field(alloc, at)?;
            match self.take(asked, room, *column, field.text()) {
                Ok(()) => {}
                Err(CellStop::Fault(kind)) => return Err(RecordStop::Fault(Fault {
                    kind,
                    place: at + 1,
                })),
                Err(CellStop::NoMemory) => return Err(RecordStop::NoMemory),
            }
        }
        Ok(())
    }

    /// What each rank says is what those say who have it, where the columns are the candidates', and what is at its
    /// place among what they say, where they are of ranks.
    pub fn say(&mut self, layout: Layout, places: &[usize]) -> Result<(), NoMemory>
        ensures count { self.new.count ≡ self.old.count }
        ensures holders { self.new.holders ≡ self.old.holders }
        ensures said { OnOk result (IsSaidBy layout places.now self.old self.new) }
    {
        match layout {
            Layout::Ranks => self.holders.say(&mut self.said),
            Layout::Choices => say_at(places, &self.chosen, &mut self.said),
            Layout::List => Ok(()),
        }
    }

    /// Takes in the next cell.
    fn take(
        &mut self,
        asked: &TableAsked,
        room: u32,
        column: Column,
        text: &[u8],
    ) -> Result<(), CellStop>
        requires names { length asked.now.candidates ≤ MOST_CANDIDATES }
        requires room { room ≤ MOST_BALLOTS }
        requires few { self.old.holders.candidates + candidates_at column ≤ MOST_CANDIDATES }
        ensures { TakesCell (asked_of asked.now) room column text.now self.old result self.new }
    {
        match column {
            Column::PassedOver => Ok(()),
            Column::Weight => {
                let count = counted(room, text)?;
                self.count = self.count.or(Some(count));
                Ok(())
            }
            Column::Candidate(_) => {
                let rank = asked.rank_in(text)?;
                self.holders.put(rank);
                Ok(())
            }
            Column::Rank(_) => {
                let says = asked.says_in(text)?;
                match self.chosen.push(says) {
                    Ok(()) => Ok(()),
                    Err(_) => Err(CellStop::NoMemory),
                }
            }
            Column::List => push_parts(asked, text, &mut self.said),
        }
    }
}

/// What each rank says is what is at its place.
fn say_at(places: &[usize], chosen: &[Option<Says>], said: &mut SaidRanks) -> Result<(), NoMemory>
    ensures { OnOk result (IsSaying (at_places places.now chosen.now) said.new) }
{
    said.clear();
    for place in places {
        said.push(chosen_at(chosen, *place))?;
    }
    Ok(())
}

fn chosen_at(chosen: &[Option<Says>], place: usize) -> Option<Says>
    ensures { result ≡ slice_index_or chosen.now place None }
{
    if place < chosen.len() {
        chosen[place]
    } else {
        None
    }
}

/// Takes in what the parts of a list say.
fn push_parts(asked: &TableAsked, list: &[u8], said: &mut SaidRanks) -> Result<(), CellStop>
    requires names { length asked.now.candidates ≤ MOST_CANDIDATES }
    ensures stop { IfErr result (IsCellStop (fault_one (all_of (map (says_in (asked_of asked.now)) (parts list.now))))) }
    ensures sound { OnOk result (fault_one (all_of (map (says_in (asked_of asked.now)) (parts list.now))) ≡ None) }
    ensures said { OnOk result (SaysAll (sound_one (all_of (map (says_in (asked_of asked.now)) (parts list.now)))) said.old said.new) }
{
    for part in list.split(|b| *b == b';') {
        match asked.says_in(trimmed(part)) {
            Ok(says) => said.push(says)?,
            Err(kind) => return Err(CellStop::Fault(kind)),
        }
    }
    Ok(())
}

/// The number of ballots in a cell, of which there is room for so many more.
fn counted(room: u32, text: &[u8]) -> Result<u32, TableKind>
    requires { room ≤ MOST_BALLOTS }
    ensures { result ≡ counted room (number text.now) }
{
    match numeral_in(text, room) {
        Numeral::Number(count) => Ok(count),
        Numeral::Other => Err(TableKind::BadWeight),
        Numeral::Greater => Err(TableKind::TooManyBallots),
    }
}
