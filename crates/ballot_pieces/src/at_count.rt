// Places within ballot lines.
ghost use Rattle.std.specs.Prelude.{◌≡◌, true, IfSome};

use input_text::Tokens;
use memchr::memchr;

/// A place within ballot lines: right after a count, which was taken with its own place.
#[derive(Drop)]
pub(crate) struct AtCount<'a> {
    pub count: (u32, usize),
    pub tokens: Tokens<'a>,
}

impl<'a> AtCount<'a> {
    /// The same place.
    pub(crate) fn same(&self) -> AtCount<'a>
        ensures { result ≡ self.now }
    {
        AtCount {
            count: self.count,
            tokens: self.tokens.same(),
        }
    }

    /// Whether the other one is after the same count at the same place of one input.
    pub(crate) fn is_at(&self, other: &AtCount<'_>) -> bool
        requires { self.now.tokens.bytes ≡ other.now.tokens.bytes }
        ensures { result ≡ true → self.now ≡ other.now }
    {
        let (count, at) = self.count;
        let (other_count, other_at) = other.count;
        count == other_count && at == other_at && self.tokens.stands_with(&other.tokens)
    }

    /// The place after the first number of the next line, if there is one.
    pub(crate) fn next_line(&self, from: usize) -> Option<AtCount<'a>>
        ensures { IfSome result (λ next. next.tokens.bytes ≡ self.now.tokens.bytes) }
    {
        let bytes = self.tokens.input();
        if from > bytes.len() {
            return None;
        }
        let len = memchr(b'\n', &bytes[from..])?;
        let at = from.saturating_add(len);
        if at > bytes.len() {
            return None;
        }
        let mut tokens = Tokens::from_place(bytes, false, at);
        let count = tokens.next_number().ok()?;
        Some(AtCount { count, tokens })
    }
}
