// What is in brackets at the end of a text.
ghost use Rattle.std.specs.Prelude.{◌≡◌, ◌==◌, ◌≤◌, [], ◌∷◌, IsTrue, ◌-◌, not, length};
ghost use Rattle.std.specs.List.{list_any, ends_with, suffix_len};
ghost use Rattle.ballot_table.specs.Head.{bracketed};

use crate::edges::trimmed;

/// What is between the last `[` and the `]` that ends a text, and nothing where these are not there.
pub(crate) fn bracketed(text: &[u8]) -> &[u8]
    ensures { result.now ≡ bracketed text.now }
{
    if !is_opened(text) || !is_closed(text) {
        return &[];
    }
    let front = &text[..text.len() - 1];
    trimmed(&front[behind_opened(front)..])
}

fn is_opened(text: &[u8]) -> bool
    ensures { result ≡ list_any (λ b. b == 91) text.now }
{
    text.iter().any(|b| *b == b'[')
}

fn is_closed(text: &[u8]) -> bool
    ensures last { result ≡ ends_with (λ a b. a == b) text.now (93 ∷ []) }
    ensures some { IsTrue result → 1 ≤ length text.now }
{
    text.ends_with(b"]")
}

// The place after the last `[`, or 0.
fn behind_opened(bytes: &[u8]) -> usize
    ensures { result ≡ length bytes.now - suffix_len (λ b. not (b == 91)) bytes.now }
{
    let mut end = bytes.len();
    while end > 0 && bytes[end - 1] != b'[' {
        end -= 1;
    }
    end
}
