// The line of a verdict.
ghost use Rattle.std.specs.Prelude.{◌≡◌, []};
ghost use Rattle.sheet_check.specs.Audit.{verdict_line};

use crate::Verdict;
use line_text::Line;

/// Puts the line of a verdict together.
pub(crate) fn verdict_line(verdict: Verdict) -> Line
    ensures { result ≡ verdict_line verdict }
{
    let mut line = Line::new();
    match verdict {
        Verdict::True => line.push_bytes(b"sheet true\n"),
        Verdict::False(n) => push_false(&mut line, n),
        Verdict::Malformed => line.push_bytes(b"sheet malformed\n"),
    }
    line
}

/// Writes into an empty line that a sheet is false at the line of this number.
fn push_false(line: &mut Line, n: u64)
    requires { line.old ≡ [] }
    ensures { line.new ≡ verdict_line (Verdict.False n) }
{
    line.push_bytes(b"sheet false at line ");
    line.push_count(n);
    line.push_bytes(b"\n");
}
