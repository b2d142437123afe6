// Bytes without tabs and spaces at either end.
ghost use Rattle.std.specs.Prelude.{◌≡◌, ◌-◌, drop, take, length};
ghost use Rattle.std.specs.List.{prefix_len, suffix_len};
ghost use Rattle.ballot_table.specs.Texts.{is_edge, trimmed};

/// Bytes without tabs and spaces at either end.
pub(crate) fn trimmed(bytes: &[u8]) -> &[u8]
    ensures { result.now ≡ trimmed bytes.now }
{
    without_end(without_front(bytes))
}

fn without_front(bytes: &[u8]) -> &[u8]
    ensures { result.now ≡ drop (prefix_len is_edge bytes.now) bytes.now }
{
    let mut at = 0;
    while at < bytes.len() && is_edge(bytes[at]) {
        at += 1;
    }
    &bytes[at..]
}

fn without_end(bytes: &[u8]) -> &[u8]
    ensures { result.now ≡ take (length bytes.now - suffix_len is_edge bytes.now) bytes.now }
{
    let mut end = bytes.len();
    while end > 0 && is_edge(bytes[end - 1]) {
        end -= 1;
    }
    &bytes[..end]
}

fn is_edge(b: u8) -> bool
    ensures { result ≡ is_edge b }
{
    b == b'\t' || b == b' '
}
