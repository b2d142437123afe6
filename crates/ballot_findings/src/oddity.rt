// What of a name or a title wants a look by itself.
ghost use Rattle.std.specs.Prelude.{◌≡◌};
ghost use Rattle.ballot_findings.specs.Oddities.{name_words, oddities, title_words};

/// What of a name or a title wants a look by itself.
#[derive(Clone, Copy)]
pub(crate) enum Oddity {
    /// It is no UTF-8, and nothing else is looked for in it.
    OtherBytes,
    /// It has a character that turns the direction of the text.
    DirectionalMark,
    /// It has a character of which nothing is seen.
    HiddenCharacter,
    /// It has a combining sign that is no letter's own.
    StraySign,
    /// It has blanks other than single spaces between words.
    UnusualBlanks,
    /// It has letters of scripts that look alike.
    SeveralScripts,
    /// It is written as a number is.
    Number,
}

impl Oddity {
    /// All of them, in the order in which they are told.
    pub(crate) fn all() -> [Oddity; 7]
        ensures { result ≡ oddities }
    {
        [
            Oddity::OtherBytes,
            Oddity::DirectionalMark,
            Oddity::HiddenCharacter,
            Oddity::StraySign,
            Oddity::UnusualBlanks,
            Oddity::SeveralScripts,
            Oddity::Number,
        ]
    }

    /// How the line begins that says so of a name.
    pub(crate) fn name_words(self) -> &'static [u8]
        ensures { result.now ≡ name_words self }
    {
        match self {
            Oddity::OtherBytes => b"look name is not UTF-8",
            Oddity::DirectionalMark => b"look name has a directional mark",
            Oddity::HiddenCharacter => b"look name has a hidden character",
            Oddity::StraySign => b"look name has a stray combining sign",
            Oddity::UnusualBlanks => b"look name has unusual blanks",
            Oddity::SeveralScripts => b"look name has letters of several scripts",
            Oddity::Number => b"look name is a number",
        }
    }

    /// How the line begins that says so of the title.
    pub(crate) fn title_words(self) -> &'static [u8]
        ensures { result.now ≡ title_words self }
    {
        match self {
            Oddity::OtherBytes => b"look title is not UTF-8",
            Oddity::DirectionalMark => b"look title has a directional mark",
            Oddity::HiddenCharacter => b"look title has a hidden character",
            Oddity::StraySign => b"look title has a stray combining sign",
            Oddity::UnusualBlanks => b"look title has unusual blanks",
            Oddity::SeveralScripts => b"look title has letters of several scripts",
            Oddity::Number => b"look title is a number",
        }
    }
}
