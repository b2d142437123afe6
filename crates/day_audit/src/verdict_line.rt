// The line of a verdict.
ghost use Rattle.std.specs.Prelude.{◌≡◌, ◌≤◌, ◌++◌, ◌∷◌, [], codes, decimal, length};
ghost use Rattle.day_audit.specs.Audit.{subject, verdict_line};
ghost use Rattle.day_audit.specs.declared.verdict_line.TheConstants.{LONGEST_SUBJECT};

use crate::AuditAsked;
use day_replay::DayVerdict;
use line_text::Line;

/// So many bytes has the longer of `day` and `trial`.
const LONGEST_SUBJECT: usize = 5;

/// The line of a verdict on what was audited.
pub fn line_of(asked: AuditAsked, verdict: DayVerdict) -> Line
    ensures { result ≡ verdict_line asked verdict }
{
    let mut line = begun(asked);
    match verdict {
        DayVerdict::True => line.push_bytes(b" true\n"),
        DayVerdict::False(n) => push_false(&mut line, n),
    }
    line
}

/// A line that begins with what was audited.
fn begun(asked: AuditAsked) -> Line
    ensures begins { result ≡ subject asked }
    ensures short { length result ≤ LONGEST_SUBJECT }
{
    let mut line = Line::new();
    match asked {
        AuditAsked::Day => line.push_bytes(b"day"),
        AuditAsked::Trial(_) => line.push_bytes(b"trial"),
    }
    line
}

/// Writes on that a text is false at the line of this number.
fn push_false(line: &mut Line, n: u64)
    requires { length line.old ≤ LONGEST_SUBJECT }
    ensures { line.new ≡ line.old ++ (codes " false at line " ++ (decimal n ++ 10 ∷ [])) }
{
    line.push_bytes(b" false at line ");
    line.push_count(n);
    line.push_bytes(b"\n");
}
