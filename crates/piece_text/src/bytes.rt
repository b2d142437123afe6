// A piece.
ghost use Rattle.piece_text.specs.Writing.{Writes};

use byte_edge::{Failed, Sink, write_all};

/// Writes bytes as they are.
pub fn write_bytes<K: Sink>(bytes: &[u8], sink: &mut K) -> Result<(), Failed>
    ensures { Writes K.written K.faults sink.old sink.new bytes.now result }
{
    write_all(sink, bytes)
}
