// The report on what was read.
ghost use Rattle.std.specs.Prelude.{◌≡◌, ◌+◌, ◌≤◌, ◌++◌, length};
ghost use Rattle.blt_import.specs.Report.{number_line, report_text};

use ballot_table::Tally;
use line_text::Line;

/// A line for each number.
pub(crate) fn report(tally: Tally) -> Line
    ensures { result ≡ report_text tally }
{
    let mut text = Line::new();
    push_number(&mut text, b"rows", tally.rows);
    push_number(&mut text, b"dropped", tally.dropped);
    push_number(&mut text, b"ballots", tally.ballots);
    push_number(&mut text, b"empty", tally.empty);
    push_number(&mut text, b"closed", tally.closed);
    push_number(&mut text, b"passed", tally.passed);
    push_number(&mut text, b"cut", tally.cut);
    text
}

/// Puts the line of a number after others.
fn push_number(text: &mut Line, word: &[u8], number: u64)
    requires word { length word.now ≤ 7 }
    requires room { length text.old ≤ 1000 }
    ensures line { text.new ≡ text.old ++ number_line word.now number }
    ensures short { length text.new ≤ length text.old + 29 }
{
    text.push_bytes(word);
    text.push_bytes(b" ");
    text.push_count(number);
    text.push_bytes(b"\n");
}
