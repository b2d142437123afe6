// The records of a head.
ghost use Rattle.std.specs.Prelude.{◌≡◌, ◌+◌, ◌≤◌, ◌++◌, ◌∷◌, [], length, OnOk};
ghost use Rattle.ballot_table.specs.declared.table_kind.TableKind.TheVariants.{HeadExpected};
ghost use Rattle.ballot_table.specs.Sheets.{ReadsHead};

use crate::fault::Fault;
use crate::sheet::{Place, Sheet};
use crate::{TableAsked, TableKind, TableStop, Text, Texts};
use plain_ballots::NoMemory;
use std::alloc::Global;

/// The records of a head: the texts of each, and the place of the last.
#[derive(Drop)]
pub(crate) struct HeadRecords {
    pub texts: Vec<Texts>,
    pub place: Place,
}

impl HeadRecords {
    /// The next records of a sheet, as many as are the head.
    pub fn read(
        alloc: Global,
        asked: &TableAsked,
        sheet: &mut Sheet<'_>,
    ) -> Result<HeadRecords, TableStop>
        requires { 1 ≤ asked.now.heads }
        ensures { ReadsHead asked.now sheet.old.records.rest result sheet.new }
    {
        let mut texts = Vec::new(alloc);
        let mut place = Place {
            at: 0,
            end: 0,
            row: 0,
        };
        let mut ended = TableStop::NoMemory;
        let heads = asked.heads;
        let mut read = 0;
        while read < heads {
            place = match sheet.next() {
                Ok(Some(place)) => place,
                Ok(None) => return Err(ended),
                Err(stop) => return Err(stop),
            };
            let Ok(fields) = sheet.texts(alloc) else {
                return Err(TableStop::NoMemory);
            };
            ended = sheet.stop_at(place, expected_after(fields.items()));
            let Ok(()) = push(&mut texts, fields) else {
                return Err(TableStop::NoMemory);
            };
            read += 1;
        }
        Ok(HeadRecords { texts, place })
    }
}

/// After a record of these texts a further one is expected.
fn expected_after(texts: &[Text]) -> Fault
    ensures { result ≡ record { kind = HeadExpected; place = length texts.now + 1 } }
{
    Fault {
        kind: TableKind::HeadExpected,
        place: texts.len() + 1,
    }
}

fn push(records: &mut Vec<Texts>, texts: Texts) -> Result<(), NoMemory>
    ensures { OnOk result (records.new.items ≡ records.old.items ++ texts ∷ []) }
{
    match records.push(texts) {
        Ok(()) => Ok(()),
        Err(_) => Err(NoMemory),
    }
}
