// A text.
ghost use Rattle.std.specs.Prelude.{◌≡◌};
ghost use Rattle.page_tree.specs.Print.{entity, shown};
ghost use Rattle.piece_text.specs.Writing.{Writes};

use crate::{Escapes, write_escaped};
use byte_edge::{Failed, Sink};
use piece_text::write_bytes;

/// Writes a text with its entities. Bytes that are no UTF-8 are written as the replacement sign.
pub fn write_text<K: Sink>(text: &[u8], sink: &mut K) -> Result<(), Failed>
    ensures { Writes K.written K.faults sink.old sink.new (shown text.now) result }
{
    write_escaped::<Entities, K>(text, sink)
}

/// The characters of the markup stand as entities.
struct Entities;

impl Escapes for Entities {
    ghost escape = { entity };

    fn write_byte<K: Sink>(byte: u8, sink: &mut K) -> Result<(), Failed> {
        match byte {
            b'&' => write_bytes(b"&amp;", sink),
            b'<' => write_bytes(b"&lt;", sink),
            b'>' => write_bytes(b"&gt;", sink),
            b'"' => write_bytes(b"&quot;", sink),
            b'\'' => write_bytes(b"&#39;", sink),
            _ => write_bytes(&[byte], sink),
        }
    }
}
