// Whether a name or a title wants a look by itself.
ghost use Rattle.std.specs.Prelude.{◌≡◌, ◌≤◌, length, count_by};
ghost use Rattle.std.specs.Str.{chars};
ghost use Rattle.ballot_findings.specs.Oddities.{has_oddity, is_odd, is_of_bytes};
ghost use Rattle.ballot_findings.specs.Signs.{has, has_several_scripts, has_stray_sign, has_unusual_blanks, is_number, is_out_of_place, is_stray, is_unusual};

use crate::kind::{Kind, is_blank, is_carrying, is_combining, is_striking};
use crate::oddity::Oddity;

/// Whether these bytes of a name or a title have an oddity.
pub(crate) fn is_odd(oddity: Oddity, bytes: &[u8]) -> bool
    ensures { result ≡ is_odd oddity bytes.now }
{
    match str::from_utf8(bytes) {
        Ok(text) => has_oddity(oddity, text),
        Err(_) => is_of_bytes(oddity),
    }
}

/// Whether it is the oddity of bytes that are no UTF-8.
fn is_of_bytes(oddity: Oddity) -> bool
    ensures { result ≡ is_of_bytes oddity }
{
    match oddity {
        Oddity::OtherBytes => true,
        Oddity::DirectionalMark => false,
        Oddity::HiddenCharacter => false,
        Oddity::StraySign => false,
        Oddity::UnusualBlanks => false,
        Oddity::SeveralScripts => false,
        Oddity::Number => false,
    }
}

fn has_oddity(oddity: Oddity, text: &str) -> bool
    ensures { result ≡ has_oddity oddity (chars text.now) }
{
    match oddity {
        Oddity::OtherBytes => false,
        Oddity::DirectionalMark => has(Kind::Directional, text),
        Oddity::HiddenCharacter => has(Kind::Hidden, text),
        Oddity::StraySign => has_stray_sign(text),
        Oddity::UnusualBlanks => has_unusual_blanks(text),
        Oddity::SeveralScripts => has_several_scripts(text),
        Oddity::Number => is_number(text),
    }
}

/// Whether a character of the text is of a kind.
fn has(kind: Kind, text: &str) -> bool
    ensures { result ≡ has kind (chars text.now) }
{
    text.chars().any(|character| kind.has(character))
}

fn is_number(text: &str) -> bool
    ensures { result ≡ is_number (chars text.now) }
{
    has(Kind::Digit, text) && !has(Kind::BeyondNumbers, text)
}

fn has_several_scripts(text: &str) -> bool
    ensures { result ≡ has_several_scripts (chars text.now) }
{
    let scripts = [
        Kind::Latin,
        Kind::Greek,
        Kind::Cyrillic,
        Kind::Armenian,
        Kind::Cherokee,
        Kind::Lisu,
        Kind::Coptic,
    ];
    1 < how_many(&scripts, text)
}

/// Of how many of these kinds the text has a character.
fn how_many(kinds: &[Kind], text: &str) -> usize
    ensures value { result ≡ count_by (λ kind. has kind (chars text.now)) kinds.now }
    ensures few { result ≤ length kinds.now }
{
    let mut count = 0;
    for kind in kinds {
        if has(*kind, text) {
            count += 1;
        }
    }
    count
}

/// Whether a blank of the text is no space, is next to another, or is at an end.
fn has_unusual_blanks(text: &str) -> bool
    ensures { result ≡ has_unusual_blanks (chars text.now) }
{
    let (mut before, mut last) = (' ', '\0');
    for character in text.chars() {
        if is_unusual(before, character) {
            return true;
        }
        (before, last) = (character, character);
    }
    is_blank(last)
}

fn is_unusual(before: char, character: char) -> bool
    ensures { result ≡ is_unusual before character }
{
    is_blank(character) && (character != ' ' || is_blank(before))
}

/// Whether a combining sign of the text is no letter's own.
fn has_stray_sign(text: &str) -> bool
    ensures { result ≡ has_stray_sign (chars text.now) }
{
    let (mut first, mut second, mut third) = (' ', ' ', ' ');
    for sign in text.chars() {
        if is_stray(first, second, third, sign) {
            return true;
        }
        (first, second, third) = (second, third, sign);
    }
    false
}

fn is_stray(first: char, second: char, third: char, sign: char) -> bool
    ensures { result ≡ is_stray first second third sign }
{
    is_striking(sign) || (is_combining(sign) && is_out_of_place(first, second, third))
}

/// Whether a sign after these three characters has no letter, or is the fourth sign in a row.
fn is_out_of_place(first: char, second: char, third: char) -> bool
    ensures { result ≡ is_out_of_place first second third }
{
    !is_carrying(third) || (is_combining(first) && is_combining(second) && is_combining(third))
}
