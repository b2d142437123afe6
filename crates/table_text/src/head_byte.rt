// What a byte of a head does.
ghost use Rattle.std.specs.Prelude.{◌≡◌};
ghost use Rattle.table_text.specs.Separator.{may_part, head_byte};

use crate::mark::{FEED, QUOTE, RETURN, TAB};

/// What a byte of a head does: it goes in or out of quotes, ends the head, may part two fields, or none of it.
#[derive(Clone, Copy)]
pub(crate) enum HeadByte {
    Quote,
    Ends,
    MayPart,
    Other,
}

pub(crate) const COMMA: u8 = b',';

const SEMICOLON: u8 = b';';

/// What a byte of a head does, within quotes or outside.
pub(crate) fn head_byte_of(is_quoted: bool, b: u8) -> HeadByte
    ensures { result ≡ head_byte is_quoted b }
{
    if b == QUOTE {
        HeadByte::Quote
    } else if is_quoted {
        HeadByte::Other
    } else if b == FEED || b == RETURN {
        HeadByte::Ends
    } else if may_part(b) {
        HeadByte::MayPart
    } else {
        HeadByte::Other
    }
}

fn may_part(b: u8) -> bool
    ensures { result ≡ may_part b }
{
    b == COMMA || b == SEMICOLON || b == TAB
}
