// Lines of one kind.
ghost use Rattle.std.specs.Prelude.{◌≡◌, ◌+◌, ◌-◌, ◌++◌, ℕ, List, nat_lt, codes, OnOk};
ghost use Rattle.ballot_findings.specs.Counted.{counted, with_line};
ghost use Rattle.ballot_findings.specs.Lines.{count_line, only_if, place_line};
ghost use Rattle.ballot_findings.specs.Places.{IsMarkOf};

use crate::mark::Mark;
use crate::no_memory::NoMemory;
use crate::text::Text;

/// Counts one more line of a kind, and appends it where fewer than a hundred are there. It has words and numbers, and after
/// them the line and the column of a mark.
pub(crate) fn push_told(
    text: &mut Text,
    count: &mut u64,
    words: &[u8],
    numbers: &[u64],
    mark: Mark,
) -> Result<(), NoMemory>
    ensures { (input : List ℕ) (place : ℕ) → IsMarkOf input place mark
        → OnOk result (counted text.new count.new
        ≡ with_line (counted text.old count.old) (place_line input words.now numbers.now place)) }
{
    if *count < 100 {
        text.push_place_line(words, numbers, mark)?;
    }
    one_more(count)
}

/// One more. There are never as many as can't be counted.
fn one_more(count: &mut u64) -> Result<(), NoMemory>
    ensures { OnOk result (count.new ≡ count.old + 1) }
{
    match count.checked_add(1) {
        Some(more) => {
            *count = more;
            Ok(())
        }
        None => Err(NoMemory),
    }
}

/// The line that says how many more than a hundred lines of a kind there are, where there are.
pub(crate) fn push_more(text: &mut Text, count: u64) -> Result<(), NoMemory>
    ensures { OnOk result (text.new ≡ text.old
        ++ only_if (nat_lt 100 count) (count_line (codes "look more lines of this kind ") (count - 100))) }
{
    if count <= 100 {
        return Ok(());
    }
    text.push_count_line(b"look more lines of this kind ", count - 100)
}
