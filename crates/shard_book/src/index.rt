// The index of a shard's batches.
ghost use Rattle.std.specs.Prelude.{◌≡◌, ℕ, ◌≤◌, ◌==◌, if◌then◌else◌, nat_eq, option_map, IfSome};
ghost use Rattle.batch_core.specs.declared.limits.TheConstants.{LAST_NUMBER};
ghost use Rattle.indexmap.specs.IndexMap.{get, spare};
ghost use Rattle.batch_core.specs.Book.{batch_of, change_reply};
ghost use Rattle.shard_book.specs.Rows.{outline, index_after, standing_place};

use crate::row::Row;
use batch_core::{Change, Reply};
use indexmap::IndexMap;

/// The place of the entry whose ballots stand in this batch, if it stands.
pub(crate) fn standing_place(index: &IndexMap<u32, Row>, batch: u32) -> Option<usize>
    ensures { result ≡ standing_place (get nat_eq index.now batch) }
{
    match index.get(&batch) {
        Some(row) => row.place,
        None => None,
    }
}

/// Answers a change, whose entry comes to this place, and notes it.
pub(crate) fn answer(index: &mut IndexMap<u32, Row>, change: &Change, place: usize) -> Reply
    requires room { 1 ≤ spare index.old }
    requires rows { IfSome (get nat_eq index.old (batch_of change.now)) (λ row. row.revision ≤ LAST_NUMBER) }
    ensures answered { result
        ≡ change_reply (option_map outline (get nat_eq index.old (batch_of change.now))) change.now }
    ensures index { (b : ℕ) → get nat_eq index.new b
        ≡ (if batch_of change.now == b
        then index_after (get nat_eq index.old (batch_of change.now)) result place
        else get nat_eq index.old b) }
{
    let batch = change.batch();
    if let Some(row) = index.get_mut(&batch) {
        return row.change(change, place);
    }
    match change {
        Change::Enter { .. } => {
            let row = Row {
                revision: 1,
                place: Some(place),
            };
            match index.insert(batch, row) {
                Ok(_) => Reply::Entered,
                Err(_) => unreachable!(),
            }
        }
        _ => Reply::Unknown,
    }
}
