// Why there are no ballots to write.
ghost use Rattle.std.specs.Prelude.{◌≡◌, ◌++◌, ◌∷◌, [], codes, decimal};
ghost use Rattle.day_ballots.specs.Ballots.{ballots_refusals, refusal_line};

use blt_reader::InputFault;
use day_audit::{AuditAsked, line_of};
use day_replay::DayVerdict;
use line_text::Line;
use tool_edge::Fault;

/// Why an input has no ballots to write at the line that was asked for.
#[derive(Clone, Copy, Debug, PartialEq, Eq)]
pub enum BallotsFault {
    /// It is no text with a day file after it.
    File(InputFault),
    /// This line, from 1, is the first that no history of the day has there, and not after the one asked for.
    False(u64),
    /// This line, from 1, is the one asked for, and that of no freeze.
    NoFreeze(u64),
}

impl Fault for BallotsFault {
    ghost refusals = { ballots_refusals };

    fn line(&self) -> Line {
        match self {
            BallotsFault::File(fault) => fault.line(),
            BallotsFault::False(line) => line_of(AuditAsked::Day, DayVerdict::False(*line)),
            BallotsFault::NoFreeze(line) => no_freeze_line(*line),
        }
    }

    fn too_long(most: usize) -> BallotsFault {
        BallotsFault::File(InputFault::too_long(most))
    }
}

/// The line that answers where the line that was asked for is no freeze.
fn no_freeze_line(at: u64) -> Line
    ensures { result ≡ refusal_line (BallotsFault.NoFreeze at) }
{
    let mut line = Line::new();
    line.push_bytes(b"refused NoFreeze at ");
    line.push_count(at);
    line.push_bytes(b"\n");
    line
}
