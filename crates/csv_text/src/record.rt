// A record.
ghost use Rattle.std.specs.Prelude.{◌∷◌, map};
ghost use Rattle.std.specs.List.{flat_map};
ghost use Rattle.csv_text.specs.Csv.{behind_comma, record_text};
ghost use Rattle.piece_text.specs.Writing.{Writes};

use crate::write_field;
use byte_edge::{Failed, Sink};
use piece_text::write_bytes;

/// Writes a record, which has at least one field, and ends its line.
pub fn write_record<K: Sink>(first: &[u8], others: &[&[u8]], sink: &mut K) -> Result<(), Failed>
    ensures { Writes K.written K.faults sink.old sink.new
        (record_text (first.now ∷ map (λ field. field.now) others.now)) result }
{
    write_field(first, sink)?;
    write_others(others, sink)?;
    write_bytes(b"\r\n", sink)
}

fn write_others<K: Sink>(fields: &[&[u8]], sink: &mut K) -> Result<(), Failed>
    ensures { Writes K.written K.faults sink.old sink.new
        (flat_map (λ field. behind_comma field.now) fields.now) result }
{
    for field in fields {
        write_other(*field, sink)?;
    }
    Ok(())
}

fn write_other<K: Sink>(field: &[u8], sink: &mut K) -> Result<(), Failed>
    ensures { Writes K.written K.faults sink.old sink.new (behind_comma field.now) result }
{
    write_bytes(b",", sink)?;
    write_field(field, sink)
}
