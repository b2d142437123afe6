// What stands after the calls of a history.
ghost use Rattle.std.specs.Prelude.{◌≡◌, ◌≤◌, ◌++◌, ℕ, IfOk, None, OnOk, replicate};
ghost use Rattle.batch_core.specs.declared.limits.TheConstants.{LAST_NUMBER};
ghost use Rattle.batch_core.specs.declared.call.Call.TheVariants as call;
ghost use Rattle.batch_core.specs.Book.{BookState, after, empty, strike};
ghost use Rattle.day_text.specs.End.{Follows, IsTable, day_end, end_of, if_any};

use crate::change_end::changed;
use crate::{BatchEnd, DayEnd};
use batch_core::{Call, Change, Entries, LAST_NUMBER, NoMemory, a_book_answers_a_history};
use std::alloc::Global;

/// What is in the end of a history: for each batch its last revision, and who is struck. A change of a batch
/// beyond the last is passed over.
pub fn end_of_day(alloc: Global, history: &Entries) -> Result<DayEnd, NoMemory>
    ensures { IfOk result (λ end. end ≡ day_end history.now.items) }
{
    a_book_answers_a_history();
    let mut ending = Ending::new(alloc)?;
    for at in 0..history.len() {
        ending.call(&history.get(at).call)?;
    }
    ending.finish(alloc)
}

/// What became of each batch, that of batch b at index b - 1, and the struck candidates.
#[derive(Drop)]
struct Ending {
    table: Vec<Option<BatchEnd>>,
    struck: Vec<u32>,
}

impl Ending {
    /// Before the first call.
    fn new(alloc: Global) -> Result<Ending, NoMemory>
        ensures table { IfOk result (λ ending. IsTable ending.table.items) }
        ensures empty { IfOk result (λ ending. Follows ending.table.items ending.struck.items empty) }
    {
        Ok(Ending {
            table: none_entered(alloc)?,
            struck: Vec::new(alloc),
        })
    }

    /// Follows a call.
    fn call(&mut self, call: &Call) -> Result<(), NoMemory>
        requires { IsTable self.old.table.items }
        ensures table { IsTable self.new.table.items }
        ensures after { OnOk result ((book : BookState) → Follows self.old.table.items self.old.struck.items book
            → Follows self.new.table.items self.new.struck.items (after book call.now)) }
    {
        match call {
            Call::Change(change) => {
                self.change(change);
                Ok(())
            }
            Call::Freeze => Ok(()),
            Call::Strike(candidate) => self.strike(*candidate),
        }
    }

    /// Follows a change. That of a batch beyond the last is passed over.
    fn change(&mut self, change: &Change)
        requires { IsTable self.old.table.items }
        ensures table { IsTable self.new.table.items }
        ensures after { (book : BookState) → Follows self.old.table.items self.old.struck.items book
            → Follows self.new.table.items self.new.struck.items (after book (call.Change change.now)) }
    {
        let batch = change.batch();
        if batch < 1 {
            return;
        }
        if batch > LAST_NUMBER {
            return;
        }
        let place = batch as usize - 1;
        let end = changed(self.table[place], change);
        self.table[place] = end;
    }

    /// Follows a strike.
    fn strike(&mut self, candidate: u32) -> Result<(), NoMemory>
        ensures table { self.new.table.items ≡ self.old.table.items }
        ensures struck { OnOk result (self.new.struck.items ≡ strike self.old.struck.items candidate) }
    {
        if self.struck.contains(&candidate) {
            return Ok(());
        }
        match self.struck.push(candidate) {
            Ok(()) => Ok(()),
            Err(_) => Err(NoMemory),
        }
    }

    /// All batches that were entered, and the struck candidates.
    fn finish(self, alloc: Global) -> Result<DayEnd, NoMemory>
        requires { IsTable self.table.items }
        ensures { IfOk result (λ end. (book : BookState) → Follows self.table.items self.struck.items book → end ≡ end_of book) }
    {
        let Ending { table, struck } = self;
        let mut batches = Vec::new(alloc);
        for at in 0..LAST_NUMBER as usize {
            push_any(&mut batches, table[at])?;
        }
        Ok(DayEnd { batches, struck })
    }
}

/// A table in which no batch was entered.
fn none_entered(alloc: Global) -> Result<Vec<Option<BatchEnd>>, NoMemory>
    ensures { IfOk result (λ table. table.items ≡ replicate LAST_NUMBER None) }
{
    let mut table = Vec::new(alloc);
    for _ in 0..LAST_NUMBER {
        let Ok(()) = table.push(None) else {
            return Err(NoMemory);
        };
    }
    Ok(table)
}

/// Puts one item more after the others, where there is one.
fn push_any(batches: &mut Vec<BatchEnd>, end: Option<BatchEnd>) -> Result<(), NoMemory>
    ensures { OnOk result (batches.new.items ≡ batches.old.items ++ if_any end) }
{
    let Some(end) = end else {
        return Ok(());
    };
    match batches.push(end) {
        Ok(()) => Ok(()),
        Err(_) => Err(NoMemory),
    }
}
