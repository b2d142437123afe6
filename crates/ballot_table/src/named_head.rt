// The head of a table with the candidates that it names.
ghost use Rattle.std.specs.Prelude.{◌≡◌, ◌≤◌, None, length, OnOk, IfOk, IfErr};
ghost use Rattle.std.specs.Option.{option_map};
ghost use Rattle.plain_ballots.specs.declared.limits.TheConstants.{MOST_CANDIDATES};
ghost use Rattle.ballot_table.specs.Asked.{asked_of};
ghost use Rattle.ballot_table.specs.Finding.{IsHead};
ghost use Rattle.ballot_table.specs.Head.{head_fault, names_of};
ghost use Rattle.ballot_table.specs.Imported.{IsTableStop, stop_at};
ghost use Rattle.ballot_table.specs.Sheets.{row_at};

use crate::head::{Head, names};
use crate::record_stop::RecordStop;
use crate::sheet::{Place, Sheet};
use crate::{TableAsked, TableStop, Text};
use candidate_roll::Names;
use std::alloc::Global;

/// The head of a table, and the names of all candidates.
#[derive(Drop)]
pub(crate) struct NamedHead {
    pub head: Head,
    pub names: Names,
}

impl NamedHead {
    /// The head of these texts, or its first fault, which is told at the record at a place.
    pub fn read(
        alloc: Global,
        asked: &TableAsked,
        texts: &[Text],
        sheet: &Sheet<'_>,
        place: Place,
    ) -> Result<NamedHead, TableStop>
        requires names { length asked.now.candidates ≤ MOST_CANDIDATES }
        ensures stop { IfErr result (IsTableStop
            (option_map (stop_at (row_at sheet.now place)) (head_fault (asked_of asked.now) texts.now))) }
        ensures sound { OnOk result (head_fault (asked_of asked.now) texts.now ≡ None) }
        ensures head { IfOk result (λ named. IsHead (asked_of asked.now) texts.now named.head) }
        ensures names { IfOk result (λ named. named.names ≡ names_of (asked_of asked.now) texts.now) }
    {
        let head = match Head::read(alloc, asked, texts) {
            Ok(head) => head,
            Err(RecordStop::Fault(fault)) => return Err(sheet.stop_at(place, fault)),
            Err(RecordStop::NoMemory) => return Err(TableStop::NoMemory),
        };
        match names(alloc, asked, texts) {
            Ok(names) => Ok(NamedHead { head, names }),
            Err(_) => Err(TableStop::NoMemory),
        }
    }
}
