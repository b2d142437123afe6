// The lines of a history's calls, compared with a text.
ghost use Rattle.std.specs.Prelude.{◌≡◌, MatchOption};
ghost use Rattle.day_lines.specs.EntryText.{entries_text};
ghost use Rattle.sheet_check.specs.Comparison.{IsCompared};
ghost use Rattle.day_replay.specs.Nearest.{BeginsAs};
ghost use Rattle.day_ballots.specs.Found.{IsFirstOther};

use call_register::History;
use day_lines::write_entries;
use sheet_check::Comparing;

/// The first of so many calls whose line is another than in the text, by its number from 1.
pub(crate) fn first_other(text: &[u8], history: &History, at: u64) -> Option<u64>
    ensures { MatchOption result (BeginsAs at text.now history.now) (IsFirstOther at text.now history.now) }
{
    let calls = history.entries().items().len() as u64;
    let line = first_difference(text, history)?;
    if line <= at && line <= calls {
        Some(line)
    } else {
        None
    }
}

/// The first line in which a text differs from the lines of all calls, none where it is these lines.
fn first_difference(text: &[u8], history: &History) -> Option<u64>
    ensures { IsCompared (λ lines. lines ≡ entries_text history.now) text.now result }
{
    let mut sink = Comparing::new(text);
    match write_entries(history, &mut sink) {
        Ok(()) => sink.difference_from_whole(),
        Err(_) => Some(sink.difference_from_front()),
    }
}
