// Kinds of characters.
ghost use Rattle.std.specs.Prelude.{◌≡◌};
ghost use Rattle.ballot_findings.specs.Signs.{is_blank, is_carrying, is_combining, is_control, is_cherokee, is_coptic, is_cyrillic, is_directional, is_greek, is_hidden, is_high_hidden, is_latin, is_low_hidden, is_middle_hidden, is_of, is_striking};

/// A kind of characters.
#[derive(Clone, Copy)]
pub(crate) enum Kind {
    /// It turns the direction of the text.
    Directional,
    /// Nothing is seen of it.
    Hidden,
    /// One of the ten digits of ASCII.
    Digit,
    /// No number is written with it.
    BeyondNumbers,
    /// Letters of this script, as all below.
    Latin,
    Greek,
    Cyrillic,
    Armenian,
    Cherokee,
    Lisu,
    Coptic,
}

impl Kind {
    /// Whether a character is of this kind.
    pub(crate) fn has(self, character: char) -> bool
        ensures { result ≡ is_of self character }
    {
        let code = character as u32;
        match self {
            Kind::Directional => is_directional(code),
            Kind::Hidden => is_hidden(code),
            Kind::Digit => 48 <= code && code <= 57,
            Kind::BeyondNumbers => code < 32 || 63 < code,
            Kind::Latin => is_latin(code),
            Kind::Greek => is_greek(code),
            Kind::Cyrillic => is_cyrillic(code),
            Kind::Armenian => 0x531 <= code && code <= 0x588,
            Kind::Cherokee => is_cherokee(code),
            Kind::Lisu => 0xA4D0 <= code && code <= 0xA4FF,
            Kind::Coptic => is_coptic(code),
        }
    }
}

fn is_directional(code: u32) -> bool
    ensures { result ≡ is_directional code }
{
    matches!(code, 0x061C | 0x200E..=0x200F | 0x202A..=0x202E | 0x2066..=0x2069)
}

fn is_hidden(code: u32) -> bool
    ensures { result ≡ is_hidden code }
{
    is_control(code) || is_low_hidden(code) || is_middle_hidden(code) || is_high_hidden(code)
}

fn is_control(code: u32) -> bool
    ensures { result ≡ is_control code }
{
    matches!(code, 0..=31 | 127..=159)
}

fn is_low_hidden(code: u32) -> bool
    ensures { result ≡ is_low_hidden code }
{
    matches!(code, 0x00AD | 0x034F | 0x115F..=0x1160 | 0x17B4..=0x17B5 | 0x180B..=0x180F)
}

fn is_middle_hidden(code: u32) -> bool
    ensures { result ≡ is_middle_hidden code }
{
    matches!(
        code,
        0x200B..=0x200D
            | 0x2028..=0x2029
            | 0x2060..=0x2065
            | 0x206A..=0x206F
            | 0x2800
            | 0x3164
            | 0xFE00..=0xFE0F
            | 0xFEFF
            | 0xFFA0
            | 0xFFF0..=0xFFFB
    )
}

fn is_high_hidden(code: u32) -> bool
    ensures { result ≡ is_high_hidden code }
{
    matches!(code, 0x1BCA0..=0x1BCA3 | 0x1D173..=0x1D17A | 0xE0000..=0xE0FFF)
}

fn is_latin(code: u32) -> bool
    ensures { result ≡ is_latin code }
{
    matches!(
        code,
        0x41..=0x5A | 0x61..=0x7A | 0xC0..=0xD6 | 0xD8..=0xF6 | 0xF8..=0x2AF | 0x1E00..=0x1EFF
    )
}

fn is_greek(code: u32) -> bool
    ensures { result ≡ is_greek code }
{
    matches!(code, 0x370..=0x3E1 | 0x3F0..=0x3FF | 0x1F00..=0x1FFF)
}

fn is_cyrillic(code: u32) -> bool
    ensures { result ≡ is_cyrillic code }
{
    matches!(code, 0x400..=0x52F | 0x1C80..=0x1C8F | 0xA640..=0xA69F)
}

fn is_cherokee(code: u32) -> bool
    ensures { result ≡ is_cherokee code }
{
    matches!(code, 0x13A0..=0x13FD | 0xAB70..=0xABBF)
}

fn is_coptic(code: u32) -> bool
    ensures { result ≡ is_coptic code }
{
    matches!(code, 0x3E2..=0x3EF | 0x2C80..=0x2CFF)
}

pub(crate) fn is_blank(character: char) -> bool
    ensures { result ≡ is_blank character }
{
    matches!(
        character as u32,
        0x20 | 0xA0 | 0x1680 | 0x2000..=0x200A | 0x202F | 0x205F | 0x3000
    )
}

pub(crate) fn is_combining(character: char) -> bool
    ensures { result ≡ is_combining character }
{
    matches!(
        character as u32,
        0x300..=0x36F
            | 0x483..=0x489
            | 0x1AB0..=0x1AFF
            | 0x1DC0..=0x1DFF
            | 0x20D0..=0x20FF
            | 0xFE20..=0xFE2F
    )
}

pub(crate) fn is_striking(character: char) -> bool
    ensures { result ≡ is_striking character }
{
    matches!(character as u32, 0x334..=0x338 | 0x488..=0x489 | 0x20D0..=0x20FF)
}

/// Whether a combining sign may come right after a character.
pub(crate) fn is_carrying(character: char) -> bool
    ensures { result ≡ is_carrying character }
{
    character.is_ascii_alphabetic() || 0xC0 <= character as u32
}
