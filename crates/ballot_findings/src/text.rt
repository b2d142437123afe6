// A text under way.
ghost use Rattle.std.specs.Prelude.{◌≡◌, ◌<◌, [], ◌∷◌, ◌++◌, ℕ, List, decimal, OnOk};
ghost use Rattle.ballot_findings.specs.Lines.{count_line, numbers_text, place_line, text_line};
ghost use Rattle.ballot_findings.specs.Places.{IsMarkOf};

use crate::mark::Mark;
use crate::no_memory::NoMemory;
use itoa::Buffer;
use std::alloc::Global;
use std::marker::Model;

/// A text under way, in memory. A push that is refused for want of it leaves no text to rely on.
#[derive(Drop)]
pub struct Text {
    bytes: Vec<u8>,
}

impl Model for Text {
    ghost use Rattle.std.specs.Prelude.{List, ℕ};

    ghost Value = { List ℕ };

    ghost view = { λ text. text.bytes.items };
}

impl Text {
    /// No text. The allocator serves each later push.
    pub(crate) fn new(alloc: Global) -> Text
        ensures { result ≡ [] }
    {
        Text {
            bytes: Vec::new(alloc),
        }
    }

    /// What was said so far.
    pub fn bytes(&self) -> &[u8]
        ensures { result.now ≡ self.now }
    {
        self.bytes.as_slice()
    }

    pub(crate) fn push(&mut self, bytes: &[u8]) -> Result<(), NoMemory>
        ensures { OnOk result (self.new ≡ self.old ++ bytes.now) }
    {
        self.bytes.extend_from_slice(bytes)?;
        Ok(())
    }

    /// Appends a whole number without leading zeros.
    pub(crate) fn push_count(&mut self, n: u64) -> Result<(), NoMemory>
        ensures { OnOk result (self.new ≡ self.old ++ decimal n) }
    {
        let mut buffer = Buffer::new();
        self.push(buffer.format(n).as_bytes())
    }

    /// Appends a line of words and a number.
    pub(crate) fn push_count_line(&mut self, words: &[u8], n: u64) -> Result<(), NoMemory>
        ensures { OnOk result (self.new ≡ self.old ++ count_line words.now n) }
    {
        self.push(words)?;
        self.push_count(n)?;
        self.push(b"\n")
    }

    /// Appends a line of words and a text.
    pub(crate) fn push_text_line(&mut self, words: &[u8], text: &[u8]) -> Result<(), NoMemory>
        ensures { OnOk result (self.new ≡ self.old ++ text_line words.now text.now) }
    {
        self.push(words)?;
        self.push(text)?;
        self.push(b"\n")
    }

    /// Appends a line of words and numbers, and after them the line and the column of a mark.
    pub(crate) fn push_place_line(
        &mut self,
        words: &[u8],
        numbers: &[u64],
        mark: Mark,
    ) -> Result<(), NoMemory>
        ensures { (input : List ℕ) (place : ℕ) → IsMarkOf input place mark
            → OnOk result (self.new ≡ self.old ++ place_line input words.now numbers.now place) }
    {
        self.push(words)?;
        self.push_numbers(numbers)?;
        self.push_numbers(&[mark.line, mark.column])?;
        self.push(b"\n")
    }

    /// Appends numbers, each after a space.
    pub(crate) fn push_numbers(&mut self, numbers: &[u64]) -> Result<(), NoMemory>
        ensures { OnOk result (self.new ≡ self.old ++ numbers_text numbers.now) }
    {
        for n in numbers {
            self.push_number(*n)?;
        }
        Ok(())
    }

    fn push_number(&mut self, n: u64) -> Result<(), NoMemory>
        ensures { OnOk result (self.new ≡ self.old ++ 32 ∷ decimal n) }
    {
        self.push(b" ")?;
        self.push_count(n)
    }
}
