// The lines of totals.
ghost use Rattle.std.specs.Prelude.{◌≡◌, ◌≤◌, ◌++◌, [], length, IfOk};
ghost use Rattle.plain_ballots.specs.declared.limits.TheConstants.{MOST_CANDIDATES};
ghost use Rattle.tally_cli.specs.Owed.{total_line, total_lines};
ghost use Rattle.tally_cli.specs.Shown.{total};

use crate::NoMemory;
use line_text::Line;
use std::alloc::Global;

/// A line for each candidate: its number, a space, and its total.
pub(crate) fn text_of(alloc: Global, totals: &[u64]) -> Result<Vec<u8>, NoMemory>
    requires { length totals.now ≤ MOST_CANDIDATES }
    ensures { IfOk result (λ text. text.items ≡ total_lines (length totals.now) (total totals.now)) }
{
    let mut text = Vec::new(alloc);
    for (i, ballots) in totals.iter().enumerate() {
        let line = total_line(i as u64 + 1, *ballots);
        text.extend_from_slice(line.bytes())?;
    }
    Ok(text)
}

fn total_line(candidate: u64, ballots: u64) -> Line
    ensures { result ≡ total_line candidate ballots }
{
    let mut line = Line::new();
    line.push_count(candidate);
    line.push_bytes(b" ");
    line.push_count(ballots);
    line.push_bytes(b"\n");
    line
}
