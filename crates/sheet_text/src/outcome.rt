// How a sheet ends.
ghost use Rattle.std.specs.Prelude.{◌≡◌, ◌≤◌, ◌<◌, length, OnOk, OnErr};
ghost use Rattle.std.specs.Io.KnownBytes.{Appends};
ghost use Rattle.byte_edge.specs.Bytes.{AppendsFront};
ghost use Rattle.byte_edge.specs.Faults.{CountsFault};
ghost use Rattle.meek_rule.specs.Places.{each_place};
ghost use Rattle.sheet_text.specs.Lines.{text_of_lines, result_lines, outcome_line};
ghost use Rattle.sheet_text.specs.Writing.{Writes};

use crate::line_end::{end_line, write_bytes_line};
use crate::words::begin_candidate;
use byte_edge::{Failed, Sink};
use candidate_roll::{Roll, States};
use line_text::Line;

/// Writes the end of a sheet: what became of each candidate.
pub fn write_result<K: Sink>(roll: &Roll, states: &States, sink: &mut K) -> Result<(), Failed>
    requires { length states.now ≡ length roll.now.names }
    ensures all { OnOk result
        (Appends (K.written sink.old) (K.written sink.new) (text_of_lines (result_lines roll.now.names states.now))) }
    ensures front { OnErr result
        (AppendsFront (K.written sink.old) (K.written sink.new) (text_of_lines (result_lines roll.now.names states.now))) }
    ensures faults { CountsFault (K.faults sink.old) (K.faults sink.new) result }
{
    let mut line = Line::new();
    write_result_by(&mut line, roll, states, sink)
}

/// The same by a line that is there already.
pub(crate) fn write_result_by<K: Sink>(
    line: &mut Line,
    roll: &Roll,
    states: &States,
    sink: &mut K,
) -> Result<(), Failed>
    requires { length states.now ≡ length roll.now.names }
    ensures { Writes K.written K.faults sink.old sink.new
        (result_lines roll.now.names states.now) result }
{
    write_bytes_line(line, b"result", b"", sink)?;
    write_outcomes(line, roll, states, sink)?;
    write_bytes_line(line, b"end", b"", sink)
}

fn write_outcomes<K: Sink>(
    line: &mut Line,
    roll: &Roll,
    states: &States,
    sink: &mut K,
) -> Result<(), Failed>
    requires { length states.now ≡ length roll.now.names }
    ensures { Writes K.written K.faults sink.old sink.new
        (each_place (length states.now) (outcome_line states.now roll.now.names)) result }
{
    for p in 0..states.len() {
        push_outcome(line, roll, states, p);
        end_line(line, sink)?;
    }
    Ok(())
}

/// Makes the line that of the candidate at place `p`.
#[tactic(auto, using(crate::proofs::Rooms::rooms), unfolding(crate::specs::Lines::outcome_line))]
fn push_outcome(line: &mut Line, roll: &Roll, states: &States, p: usize)
    requires same_length { length states.now ≡ length roll.now.names }
    requires place { p < length states.now }
    ensures text { line.new ≡ outcome_line states.now roll.now.names p }
    ensures short { length line.new ≤ 300 }
{
    let _candidates = roll.candidates();
    begin_candidate(line, p, *states.get(p));
    line.push_bytes(roll.name(p as u32 + 1).bytes());
}
