// What a byte outside quotes does.
ghost use Rattle.std.specs.Prelude.{◌≡◌, ◌+◌, ◌<◌, length, drop, slice_index};
ghost use Rattle.table_text.specs.Spelling.{is_text};
ghost use Rattle.table_text.specs.Reading.{mark, begins_with_feed};

/// What a byte outside quotes does: it begins or ends quotes, parts two fields, ends a line, begins a line end of two bytes, may stand
/// in no text, or belongs to a field.
#[derive(Clone, Copy)]
pub(crate) enum Mark {
    Quote,
    Parts,
    Feeds,
    Returns,
    Wrong,
    Inner,
}

pub(crate) const QUOTE: u8 = b'"';

pub(crate) const FEED: u8 = b'\n';

pub(crate) const RETURN: u8 = b'\r';

pub(crate) const TAB: u8 = b'\t';

/// What the byte at a place does outside quotes. Two comparisons tell most bytes.
#[inline(always)]
pub(crate) fn mark_at(bytes: &[u8], separator: u8, at: usize) -> Mark
    requires { at < length bytes.now }
    ensures { result ≡ mark separator (slice_index bytes.now at) (drop (at + 1) bytes.now) }
{
    let b = bytes[at];
    if b <= QUOTE {
        low_mark_at(bytes, separator, at)
    } else if b == separator {
        Mark::Parts
    } else {
        Mark::Inner
    }
}

// The same of a byte that may be any.
fn low_mark_at(bytes: &[u8], separator: u8, at: usize) -> Mark
    requires { at < length bytes.now }
    ensures { result ≡ mark separator (slice_index bytes.now at) (drop (at + 1) bytes.now) }
{
    let b = bytes[at];
    if b == QUOTE {
        Mark::Quote
    } else if b == separator {
        Mark::Parts
    } else if b == FEED {
        Mark::Feeds
    } else if b == RETURN && begins_with_feed(&bytes[at + 1..]) {
        Mark::Returns
    } else if b < b' ' && b != TAB {
        Mark::Wrong
    } else {
        Mark::Inner
    }
}

fn begins_with_feed(bytes: &[u8]) -> bool
    ensures { result ≡ begins_with_feed bytes.now }
{
    match bytes {
        [] => false,
        [b, ..] => *b == FEED,
    }
}

/// Whether a byte may stand in a text at all.
pub(crate) fn is_text(b: u8) -> bool
    ensures { result ≡ is_text b }
{
    b >= b' ' || b == TAB || b == FEED || b == RETURN
}
