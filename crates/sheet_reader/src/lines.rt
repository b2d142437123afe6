// A text that is read line by line.
ghost use Rattle.std.specs.Prelude.{◌≡◌, ◌≢◌, [], ◌∷◌, ◌++◌, ℕ, List, MatchBool, MatchOption};
ghost use Rattle.sheet_reader.specs.LineList.{IsOfLines, lines_in};

use crate::cut::{cut, is_same, strip};
use std::marker::Model;

/// The lines of a text that are left to be read. What is after the last line feed is no line.
#[derive(Drop)]
pub(crate) struct Lines<'a> {
    rest: &'a [u8],
}

impl<'a> Model for Lines<'a> {
    ghost use Rattle.std.specs.Prelude.{List, ℕ};
    ghost use Rattle.sheet_reader.specs.LineList.{lines_in};

    ghost Value = { List (List ℕ) };

    ghost view = { λ lines. lines_in lines.rest.now };
}

impl<'a> Lines<'a> {
    pub(crate) fn new(text: &'a [u8]) -> Lines<'a>
        ensures { result ≡ lines_in text.now }
    {
        Lines { rest: text }
    }

    /// The next line, without its line feed.
    pub(crate) fn next(&mut self) -> Option<&'a [u8]>
        ensures { MatchOption result
            ((self.old ≡ []) × (self.new ≡ self.old))
            (λ line. self.old ≡ line.now ∷ self.new) }
    {
        let Some((line, rest)) = cut(self.rest, b'\n') else {
            return None;
        };
        self.rest = rest;
        Some(line)
    }

    /// What is after a word in the next line, which is read only where it begins with the word.
    pub(crate) fn next_after(&mut self, word: &[u8]) -> Option<&'a [u8]>
        ensures { MatchOption result
            ((self.new ≡ self.old) × ((text : List ℕ) (rest : List (List ℕ)) → self.old ≢ (word.now ++ text) ∷ rest))
            (λ text. self.old ≡ (word.now ++ text.now) ∷ self.new) }
    {
        let Some((line, rest)) = cut(self.rest, b'\n') else {
            return None;
        };
        let Some(text) = strip(line, word) else {
            return None;
        };
        self.rest = rest;
        Some(text)
    }

    /// Whether the next line is this one; only then it is read.
    pub(crate) fn skips(&mut self, wanted: &[u8]) -> bool
        ensures { MatchBool result
            (self.old ≡ wanted.now ∷ self.new)
            ((self.new ≡ self.old) × ((rest : List (List ℕ)) → self.old ≢ wanted.now ∷ rest)) }
    {
        let Some((line, rest)) = cut(self.rest, b'\n') else {
            return false;
        };
        if is_same(line, wanted) {
            self.rest = rest;
            true
        } else {
            false
        }
    }
}

/// Whether a text ends with a line feed, so that it consists of its lines.
pub(crate) fn is_ended(text: &[u8]) -> bool
    ensures { MatchBool result (IsOfLines text.now) ((front : List ℕ) → text.now ≢ front ++ 10 ∷ []) }
{
    if text.is_empty() {
        return false;
    }
    text[text.len() - 1] == b'\n'
}
