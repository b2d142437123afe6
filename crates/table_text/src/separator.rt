// Which byte parts the fields of a table.
ghost use Rattle.std.specs.Prelude.{◌≡◌};
ghost use Rattle.table_text.specs.Reading.{next_count};
ghost use Rattle.table_text.specs.Separator.{separator_of, kind_or_comma, is_unlike};

use crate::head_byte::{COMMA, HeadByte, head_byte_of};
use crate::record::next_count;
use crate::{TextFault, TextKind};

/// The byte that parts the fields of a table, as its head tells: a comma, a semicolon or a tab. It is the comma
/// where the head has none of them, and unclear where it has two kinds.
pub fn find_separator(bytes: &[u8]) -> Result<u8, TextFault>
    ensures { result ≡ separator_of bytes.now }
{
    let mut is_quoted = false;
    let mut kind = None;
    let mut count = 0u32;
    for (at, b) in bytes.iter().enumerate() {
        match head_byte_of(is_quoted, *b) {
            HeadByte::Quote => is_quoted = !is_quoted,
            HeadByte::Ends => return Ok(kind_or_comma(kind)),
            HeadByte::MayPart => {
                if is_unlike(kind, *b) {
                    return Err(unclear(at, count));
                }
                kind = Some(*b);
                count = next_count(count as usize);
            }
            HeadByte::Other => {}
        }
    }
    Ok(kind_or_comma(kind))
}

fn kind_or_comma(kind: Option<u8>) -> u8
    ensures { result ≡ kind_or_comma kind }
{
    kind.unwrap_or(COMMA)
}

fn is_unlike(kind: Option<u8>, b: u8) -> bool
    ensures { result ≡ is_unlike kind b }
{
    match kind {
        Some(other) => other != b,
        None => false,
    }
}

fn unclear(at: usize, before: u32) -> TextFault
    ensures { result ≡ record { kind = TextKind.UnclearSeparator; at = at; row = 1; column = next_count before } }
{
    TextFault {
        kind: TextKind::UnclearSeparator,
        at,
        row: 1,
        column: next_count(before as usize),
    }
}
