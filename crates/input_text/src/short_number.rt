// Short numbers, which are most tokens of a ballot file.
ghost use Rattle.std.specs.Prelude.{◌≡◌, ◌+◌, ◌-◌, ◌*◌, ◌<◌, nat_lt, if◌then◌else◌, ◌&&◌, true, IsTrue, length, IfSome, IfNone};
ghost use mir.Val.{bool_byte};
ghost use Rattle.std.specs.Char.{is_ascii_digit};
ghost use Rattle.input_text.specs.Scan.{is_separator, may_end};
ghost use Rattle.input_text.specs.ShortNumber.{IsShortNumber, HasNoNumberWithin};

/// A number of one to three digits with one separator after it: its value, and how long both are. It is
/// looked for where four bytes are left at least, and not with three digits where these are `rare`. There
/// is no branch on how many digits there are, since that changes from token to token.
#[inline(always)]
pub(crate) fn short_number(bytes: &[u8], rare: bool) -> Option<(u32, usize)>
    ensures found { IfSome result (λ found. IsShortNumber bytes.now found.0 found.1) }
    ensures none { IfNone result (3 < length bytes.now → HasNoNumberWithin (if rare then 3 else 4) bytes.now) }
{
    if rare {
        number_of_two(bytes)
    } else {
        number_of_three(bytes)
    }
}

// The same of at most two digits.
#[inline(always)]
fn number_of_two(bytes: &[u8]) -> Option<(u32, usize)>
    ensures found { IfSome result (λ found. IsShortNumber bytes.now found.0 found.1) }
    ensures none { IfNone result (3 < length bytes.now → HasNoNumberWithin 3 bytes.now) }
{
    let [first, second, _, _, ..] = bytes else {
        return None;
    };
    let (first, second) = (digit(*first), digit(*second));
    let two = second < 10;
    let len = 2 + two as usize;
    if first < 10 && is_separator(bytes[len - 1]) {
        Some((with_digit_if(two, first, second), len))
    } else {
        None
    }
}

// The same of at most three digits.
#[inline(always)]
fn number_of_three(bytes: &[u8]) -> Option<(u32, usize)>
    ensures found { IfSome result (λ found. IsShortNumber bytes.now found.0 found.1) }
    ensures none { IfNone result (3 < length bytes.now → HasNoNumberWithin 4 bytes.now) }
{
    let [first, second, third, _, ..] = bytes else {
        return None;
    };
    let (first, second, third) = (digit(*first), digit(*second), digit(*third));
    let (two, three) = (second < 10, third < 10);
    let len = short_len(two, three);
    let behind = bytes[len - 1];
    if first < 10 && is_separator(behind) {
        let value = with_digit_if(two, first, second);
        Some((with_digit_if(two & three, value, third), len))
    } else {
        None
    }
}

// How long a number and the separator after it are, where its second and its third byte are digits or not.
#[inline(always)]
fn short_len(two: bool, three: bool) -> usize
    ensures { result ≡ 2 + bool_byte two + bool_byte (two && three) }
{
    let at_least_two = if three { 4 } else { 3 };
    if two { at_least_two } else { 2 }
}

// What a byte stands for as a digit, and 10 or more where it is none.
#[inline(always)]
fn digit(b: u8) -> u32
    ensures is_digit { nat_lt result 10 ≡ is_ascii_digit b }
    ensures value { IsTrue (is_ascii_digit b) → result ≡ b - 48 }
{
    (b as u32).wrapping_sub(b'0' as u32)
}

#[inline(always)]
fn with_digit_if(is: bool, value: u32, digit: u32) -> u32
    requires small { value < 100 }
    requires digit { is ≡ true → digit < 10 }
    ensures { result ≡ (if is then value * 10 + digit else value) }
{
    if is { value * 10 + digit } else { value }
}

/// Whether this byte belongs to no token.
#[inline(always)]
pub(crate) fn is_separator(b: u8) -> bool
    ensures { result ≡ is_separator b }
{
    b == b'\t' || b == b'\n' || b == b'\r' || b == b' '
}

/// Whether a token may end before this byte.
#[inline(always)]
pub(crate) fn may_end(b: u8) -> bool
    ensures { result ≡ may_end b }
{
    is_separator(b) || b == b'#'
}
