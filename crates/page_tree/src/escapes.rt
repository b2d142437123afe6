// A text with escapes.
ghost use Rattle.std.specs.Prelude.{◌≡◌, ℕ, List};
ghost use Rattle.page_tree.specs.Escaping.{escaped, readable};
ghost use Rattle.piece_text.specs.Writing.{Writes};

use bstr::ByteSlice;
use byte_edge::{Failed, Sink};

/// Which bytes of a text can't stand as they are, and what stands for them.
pub trait Escapes {
    /// What is written for a byte.
    ghost escape: { ℕ → List ℕ };

    /// Writes what stands for a byte.
    fn write_byte<K: Sink>(byte: u8, sink: &mut K) -> Result<(), Failed>
        ensures { Writes K.written K.faults sink.old sink.new (escape byte) result };
}

/// Writes a text with its escapes. Bytes that are no UTF-8 are written as the replacement sign.
pub fn write_escaped<E: Escapes, K: Sink>(text: &[u8], sink: &mut K) -> Result<(), Failed>
    ensures { Writes K.written K.faults sink.old sink.new (escaped E.escape (readable text.now)) result }
{
    let mut rest = text.chars();
    while let Some(c) = rest.next() {
        let mut room = [0; 4];
        write_each::<E, K>(c.encode_utf8(&mut room).as_bytes(), sink)?;
    }
    Ok(())
}

/// Writes what stands for each byte.
fn write_each<E: Escapes, K: Sink>(bytes: &[u8], sink: &mut K) -> Result<(), Failed>
    ensures { Writes K.written K.faults sink.old sink.new (escaped E.escape bytes.now) result }
{
    for byte in bytes {
        E::write_byte(*byte, sink)?;
    }
    Ok(())
}
