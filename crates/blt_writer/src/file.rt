// What stands round the ballots.
ghost use Rattle.std.specs.Prelude.{◌++◌, ◌∷◌, [], ◌≤◌, length};
ghost use Rattle.std.specs.List.{flat_map};
ghost use Rattle.piece_text.specs.Writing.{Writes};
ghost use Rattle.blt_writer.specs.Marks.{mark_text};
ghost use Rattle.blt_writer.specs.Text.{closing_text, head_text, opening_text, quoted, withdrawn_numbers, withdrawn_text};

use crate::numbers::write_number;
use byte_edge::{Failed, Sink};
use candidate_roll::Roll;
use piece_text::write_bytes;

/// Writes the lines before the ballots.
pub(crate) fn write_opening<K: Sink>(roll: &Roll, sink: &mut K) -> Result<(), Failed>
    ensures { Writes K.written K.faults sink.old sink.new (opening_text roll.now) result }
{
    write_head(roll, sink)?;
    write_withdrawn(roll, sink)
}

/// Writes the lines after the ballots.
pub(crate) fn write_closing<K: Sink>(roll: &Roll, sink: &mut K) -> Result<(), Failed>
    ensures { Writes K.written K.faults sink.old sink.new (closing_text roll.now) result }
{
    write_bytes(b"0\n", sink)?;
    write_names(roll, sink)?;
    write_quoted(roll.title().bytes(), sink)
}

fn write_head<K: Sink>(roll: &Roll, sink: &mut K) -> Result<(), Failed>
    ensures { Writes K.written K.faults sink.old sink.new
        (head_text (length roll.now.names) roll.now.seats) result }
{
    write_number(roll.candidates() as u64, b' ', sink)?;
    write_number(roll.seats() as u64, b'\n', sink)
}

fn write_withdrawn<K: Sink>(roll: &Roll, sink: &mut K) -> Result<(), Failed>
    ensures { Writes K.written K.faults sink.old sink.new
        (flat_map withdrawn_text (withdrawn_numbers roll.now.withdrawn)) result }
{
    for before in 0..roll.candidates() {
        write_mark(roll, before + 1, sink)?;
    }
    Ok(())
}

/// Writes the line of a candidate who was withdrawn, and nothing of another.
fn write_mark<K: Sink>(roll: &Roll, c: u32, sink: &mut K) -> Result<(), Failed>
    requires { (1 ≤ c) × (c ≤ length roll.now.names) }
    ensures { Writes K.written K.faults sink.old sink.new
        (mark_text roll.now.withdrawn c) result }
{
    if !roll.is_withdrawn(c) {
        return Ok(());
    }
    write_bytes(b"-", sink)?;
    write_number(c as u64, b'\n', sink)
}

fn write_names<K: Sink>(roll: &Roll, sink: &mut K) -> Result<(), Failed>
    ensures { Writes K.written K.faults sink.old sink.new
        (flat_map quoted roll.now.names) result }
{
    for before in 0..roll.candidates() {
        write_quoted(roll.name(before + 1).bytes(), sink)?;
    }
    Ok(())
}

fn write_quoted<K: Sink>(text: &[u8], sink: &mut K) -> Result<(), Failed>
    ensures { Writes K.written K.faults sink.old sink.new (quoted text.now) result }
{
    write_bytes(b"\"", sink)?;
    write_bytes(text, sink)?;
    write_bytes(b"\"\n", sink)
}
