// Bytes without the blanks round them.
ghost use Rattle.std.specs.Prelude.{◌≡◌, ◌-◌, take, length};
ghost use Rattle.std.specs.List.{suffix_len};
ghost use Rattle.preflib_text.specs.Texts.{is_blank, behind_blanks, trimmed};

/// Bytes without blanks at either end.
pub(crate) fn trimmed(bytes: &[u8]) -> &[u8]
    ensures { result.now ≡ trimmed bytes.now }
{
    before_blanks(behind_blanks(bytes))
}

/// What is after the blanks at the front.
pub(crate) fn behind_blanks(bytes: &[u8]) -> &[u8]
    ensures { result.now ≡ behind_blanks bytes.now }
{
    let mut at = 0;
    while at < bytes.len() && is_blank(bytes[at]) {
        at += 1;
    }
    &bytes[at..]
}

// What is before the blanks at the end.
fn before_blanks(bytes: &[u8]) -> &[u8]
    ensures { result.now ≡ take (length bytes.now - suffix_len is_blank bytes.now) bytes.now }
{
    let mut end = bytes.len();
    while end > 0 && is_blank(bytes[end - 1]) {
        end -= 1;
    }
    &bytes[..end]
}

pub(crate) fn is_blank(b: u8) -> bool
    ensures { result ≡ is_blank b }
{
    b == b'\t' || b == b' '
}
