// A text among others.
ghost use Rattle.std.specs.Prelude.{◌≡◌, ◌<◌, ◌≤◌, length, position, IfSome};
ghost use Rattle.std.specs.Str.{bytes_eq};
ghost use Rattle.ballot_table.specs.Texts.{is_in, number_in};

use crate::Text;
use candidate_roll::{MOST_NAME_BYTES, Name};

/// Whether a text is one of these.
pub(crate) fn is_in(texts: &[Text], text: &[u8]) -> bool
    ensures { result ≡ is_in texts.now text.now }
{
    texts.iter().any(|other| other.is(text))
}

/// The place of a text among these, from 1.
pub(crate) fn number_in(texts: &[Text], text: &[u8]) -> Option<usize>
    ensures number { result ≡ number_in texts.now text.now }
    ensures inside { IfSome result (λ number. number ≤ length texts.now) }
{
    match place_in(texts, text) {
        Some(place) => Some(place + 1),
        None => None,
    }
}

// The same from 0.
fn place_in(texts: &[Text], text: &[u8]) -> Option<usize>
    ensures place { result ≡ position (λ other. bytes_eq other text.now) texts.now }
    ensures inside { IfSome result (λ place. place < length texts.now) }
{
    texts.iter().position(|other| other.is(text))
}

/// The place of a name among these, from 0.
pub(crate) fn name_in(names: &[Name<MOST_NAME_BYTES>], text: &[u8]) -> Option<usize>
    ensures place { result ≡ position (λ other. bytes_eq other text.now) names.now }
    ensures inside { IfSome result (λ place. place < length names.now) }
{
    names.iter().position(|other| other.bytes() == text)
}
