// A string of JSON.
ghost use Rattle.std.specs.Prelude.{◌≡◌, ◌<◌};
ghost use Rattle.piece_text.specs.Writing.{Writes};
ghost use Rattle.sheet_page.specs.JsonText.{escape, hex_digit, string_text};

use byte_edge::{Failed, Sink};
use page_tree::{Escapes, write_escaped};
use piece_text::write_bytes;

/// Writes a text as a string of JSON. Bytes that are no UTF-8 are written as the replacement sign.
pub(crate) fn write_string<K: Sink>(text: &[u8], sink: &mut K) -> Result<(), Failed>
    ensures { Writes K.written K.faults sink.old sink.new (string_text text.now) result }
{
    write_bytes(b"\"", sink)?;
    write_escaped::<InQuotes, K>(text, sink)?;
    write_bytes(b"\"", sink)
}

/// What is within the quotes of a string: no quote and no backslash alone, and no control byte.
struct InQuotes;

impl Escapes for InQuotes {
    ghost escape = { escape };

    fn write_byte<K: Sink>(byte: u8, sink: &mut K) -> Result<(), Failed> {
        match byte {
            b'"' => write_bytes(b"\\\"", sink),
            b'\\' => write_bytes(b"\\\\", sink),
            0..=31 => write_bytes(
                &[
                    b'\\',
                    b'u',
                    b'0',
                    b'0',
                    hex_digit(byte / 16),
                    hex_digit(byte % 16),
                ],
                sink,
            ),
            _ => write_bytes(&[byte], sink),
        }
    }
}

/// A digit of base 16.
fn hex_digit(n: u8) -> u8
    requires { n < 16 }
    ensures { result ≡ hex_digit n }
{
    if n < 10 { b'0' + n } else { b'a' - 10 + n }
}
