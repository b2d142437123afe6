// A field.
ghost use Rattle.std.specs.Prelude.{◌≡◌};
ghost use Rattle.std.specs.List.{flat_map, list_any};
ghost use Rattle.csv_text.specs.Csv.{field_text, is_mark, quoted, within_quotes};
ghost use Rattle.piece_text.specs.Writing.{Writes};

use byte_edge::{Failed, Sink};
use piece_text::write_bytes;

/// Writes a field, in quotes where it holds a comma, a quote or the end of a line.
pub fn write_field<K: Sink>(field: &[u8], sink: &mut K) -> Result<(), Failed>
    ensures { Writes K.written K.faults sink.old sink.new (field_text field.now) result }
{
    if has_mark(field) {
        write_quoted(field, sink)
    } else {
        write_bytes(field, sink)
    }
}

fn has_mark(field: &[u8]) -> bool
    ensures { result ≡ list_any is_mark field.now }
{
    field.iter().any(|byte| *byte == b',' || *byte == b'"' || *byte == b'\r' || *byte == b'\n')
}

fn write_quoted<K: Sink>(field: &[u8], sink: &mut K) -> Result<(), Failed>
    ensures { Writes K.written K.faults sink.old sink.new (quoted field.now) result }
{
    write_bytes(b"\"", sink)?;
    write_within_quotes(field, sink)?;
    write_bytes(b"\"", sink)
}

fn write_within_quotes<K: Sink>(field: &[u8], sink: &mut K) -> Result<(), Failed>
    ensures { Writes K.written K.faults sink.old sink.new
        (flat_map within_quotes field.now) result }
{
    for byte in field {
        write_byte(*byte, sink)?;
    }
    Ok(())
}

fn write_byte<K: Sink>(byte: u8, sink: &mut K) -> Result<(), Failed>
    ensures { Writes K.written K.faults sink.old sink.new (within_quotes byte) result }
{
    match byte {
        b'"' => write_bytes(b"\"\"", sink),
        _ => write_bytes(&[byte], sink),
    }
}
