// The text of a field.
ghost use Rattle.std.specs.Prelude.{◌≡◌, ◌↔◌, [], ◌∷◌, ◌++◌, false, true, OnOk, IfSome, IsNone};
ghost use Rattle.table_text.specs.Reading.{begins_with_quote, unquoted, field_text};

use crate::NoMemory;
use crate::mark::QUOTE;

/// The text of a field, from the field's bytes, where it begins without a quote.
#[inline]
pub(crate) fn without_quotes(bytes: &[u8]) -> Option<&[u8]>
    ensures text { IfSome result (λ text. text.now ≡ field_text bytes.now) }
    ensures quoted { IsNone result ↔ (begins_with_quote bytes.now ≡ true) }
{
    match bytes {
        [b'"', ..] => None,
        _ => Some(bytes),
    }
}

/// Puts the text of a field into an emptied list, from the field's bytes with its quotes.
pub(crate) fn put_text(bytes: &[u8], into: &mut Vec<u8>) -> Result<(), NoMemory>
    ensures { OnOk result (into.new.items ≡ field_text bytes.now) }
{
    into.clear();
    match bytes {
        [b'"', rest @ ..] => put_unquoted(rest, into),
        _ => put_all(bytes, into),
    }
}

// Adds the bytes after a first quote, without the closing one and with one quote for each two.
fn put_unquoted(bytes: &[u8], into: &mut Vec<u8>) -> Result<(), NoMemory>
    ensures { OnOk result (into.new.items ≡ into.old.items ++ unquoted false bytes.now) }
{
    let mut is_behind_quote = false;
    for b in bytes {
        if *b == QUOTE && !is_behind_quote {
            is_behind_quote = true;
        } else {
            put_byte(*b, into)?;
            is_behind_quote = false;
        }
    }
    Ok(())
}

fn put_byte(b: u8, into: &mut Vec<u8>) -> Result<(), NoMemory>
    ensures { OnOk result (into.new.items ≡ into.old.items ++ b ∷ []) }
{
    match into.push(b) {
        Ok(()) => Ok(()),
        Err(_) => Err(NoMemory),
    }
}

fn put_all(bytes: &[u8], into: &mut Vec<u8>) -> Result<(), NoMemory>
    ensures { OnOk result (into.new.items ≡ into.old.items ++ bytes.now) }
{
    match into.extend_from_slice(bytes) {
        Ok(()) => Ok(()),
        Err(_) => Err(NoMemory),
    }
}
