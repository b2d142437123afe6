// The lines of a file of cases.
ghost use Rattle.std.specs.Prelude.{◌≡◌, ◌==◌, ◌||◌, nat_eq, slice_index_or, length, IsTrue, IfSome};
ghost use Rattle.std.specs.Char.{is_ascii_punctuation};
ghost use Rattle.std.specs.List.{before_first, after_first};

/// The first word of a line, and what comes after the space after it.
pub(crate) fn first_word(line: &str) -> (&str, &str)
    ensures word { result.0.now ≡ before_first (λ b. b == 32) line.now }
    ensures rest { result.1.now ≡ after_first (λ b. b == 32) line.now }
{
    line.split_once(' ').unwrap_or((line, ""))
}

/// Whether a tool, a text or a case begins with this line.
pub(crate) fn begins_part(line: &str) -> bool {
    matches!(first_word(line).0, "tool" | "text" | "case")
}

/// Whether a line says nothing.
pub(crate) fn is_silent(line: &str) -> bool
    ensures { result ≡ (length line.now == 0 || nat_eq (slice_index_or line.now 0 0) 35) }
{
    line.is_empty() || line.starts_with('#')
}

/// The mark before a piece of bytes, and the piece; other lines begin with a letter or digit.
pub(crate) fn marked(line: &str) -> Option<(char, &str)>
    ensures { IfSome result (λ m. IsTrue (is_ascii_punctuation m.0)) }
{
    let mut rest = line.chars();
    match rest.next() {
        Some(mark) if mark.is_ascii_punctuation() => Some((mark, rest.as_str())),
        _ => None,
    }
}
