// A label: what a head of a column or a cell may say.
ghost use Rattle.std.specs.Prelude.{◌≡◌, ◌≤◌, ◌↔◌, IsTrue, IfOk, OnOk, OnErr, All};
ghost use Rattle.import_words.specs.Labels.{IsLabel};

use meek_words::WordsStop;
use std::alloc::Global;
use std::marker::Model;

/// What a head of a column or a cell may say: some bytes, none of them a control byte, with no blank at
/// either end.
#[derive(Debug, Drop)]
pub struct Label {
    bytes: Vec<u8>,
}

impl Model for Label {
    ghost use Rattle.std.specs.Prelude.{List, ℕ};
    ghost use Rattle.import_words.specs.Labels.{IsLabel};

    ghost Value = { List ℕ };

    ghost view = { λ label. label.bytes.items };

    ghost invariant = { λ label. IsLabel label.bytes.items };
}

impl Label {
    /// The label of these bytes.
    pub(crate) fn try_new(alloc: Global, bytes: &[u8]) -> Result<Label, WordsStop>
        ensures label { IfOk result (λ label. label ≡ bytes.now) }
        ensures accepted { OnOk result (IsLabel bytes.now) }
        ensures refused { result ≡ Err WordsStop.BadWords → ¬ (IsLabel bytes.now) }
    {
        if !is_label(bytes) {
            return Err(WordsStop::BadWords);
        }
        match Vec::from_slice(alloc, bytes) {
            Ok(bytes) => Ok(Label { bytes }),
            Err(_) => Err(WordsStop::NoMemory),
        }
    }

    pub(crate) fn copy(&self, alloc: Global) -> Result<Label, WordsStop>
        ensures copied { IfOk result (λ label. label ≡ self.now) }
        ensures memory { OnErr result (result ≡ Err WordsStop.NoMemory) }
    {
        match Vec::from_slice(alloc, self.bytes()) {
            Ok(bytes) => Ok(Label { bytes }),
            Err(_) => Err(WordsStop::NoMemory),
        }
    }

    pub fn bytes(&self) -> &[u8]
        ensures value { result.now ≡ self.now }
        ensures label { IsLabel result.now }
    {
        self.bytes.as_slice()
    }
}

fn is_label(bytes: &[u8]) -> bool
    ensures { IsTrue result ↔ IsLabel bytes.now }
{
    if bytes.is_empty() {
        return false;
    }
    if bytes[0] == b' ' || bytes[bytes.len() - 1] == b' ' {
        return false;
    }
    are_printable(bytes)
}

fn are_printable(bytes: &[u8]) -> bool
    ensures { IsTrue result ↔ All (λ b. 32 ≤ b) bytes.now }
{
    for byte in bytes {
        if *byte < b' ' {
            return false;
        }
    }
    true
}
