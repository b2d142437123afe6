// How a sheet begins.
ghost use Rattle.std.specs.Prelude.{OnOk, OnErr};
ghost use Rattle.std.specs.Io.KnownBytes.{Appends};
ghost use Rattle.byte_edge.specs.Bytes.{AppendsFront};
ghost use Rattle.byte_edge.specs.Faults.{CountsFault};
ghost use Rattle.sheet_text.specs.Lines.{text_of_lines, head_lines};
ghost use Rattle.sheet_text.specs.Writing.{Writes};

use crate::line_end::{write_bytes_line, write_count_line};
use byte_edge::{Failed, Sink};
use candidate_roll::Roll;
use line_text::Line;

/// Writes the head of a sheet: the title, the numbers of seats and candidates, and that of all ballots.
pub fn write_head<K: Sink>(roll: &Roll, ballots: u64, sink: &mut K) -> Result<(), Failed>
    ensures all { OnOk result
        (Appends (K.written sink.old) (K.written sink.new) (text_of_lines (head_lines roll.now ballots))) }
    ensures front { OnErr result
        (AppendsFront (K.written sink.old) (K.written sink.new) (text_of_lines (head_lines roll.now ballots))) }
    ensures faults { CountsFault (K.faults sink.old) (K.faults sink.new) result }
{
    let mut line = Line::new();
    write_head_by(&mut line, roll, ballots, sink)
}

/// The same by a line that is there already.
pub(crate) fn write_head_by<K: Sink>(
    line: &mut Line,
    roll: &Roll,
    ballots: u64,
    sink: &mut K,
) -> Result<(), Failed>
    ensures { Writes K.written K.faults sink.old sink.new (head_lines roll.now ballots) result }
{
    write_bytes_line(line, b"title ", roll.title().bytes(), sink)?;
    write_count_line(line, b"seats ", roll.seats() as u64, sink)?;
    write_count_line(line, b"candidates ", roll.candidates() as u64, sink)?;
    write_count_line(line, b"ballots ", ballots, sink)
}
