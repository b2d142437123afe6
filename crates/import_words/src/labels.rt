// Labels in order.
ghost use Rattle.std.specs.Prelude.{◌≡◌, [], ◌∷◌, ◌++◌, length, OnErr, OnOk};

use crate::Label;
use meek_words::WordsStop;
use std::alloc::Global;
use std::marker::Model;

/// Labels in order.
#[derive(Debug, Drop)]
pub struct Labels {
    list: Vec<Label>,
}

impl Model for Labels {
    ghost use Rattle.std.specs.Prelude.{List, ℕ};

    ghost Value = { List (List ℕ) };

    ghost view = { λ labels. labels.list.items };
}

impl Labels {
    pub fn new(alloc: Global) -> Labels
        ensures { result ≡ [] }
    {
        Labels {
            list: Vec::new(alloc),
        }
    }

    /// Puts a label after the others. Where there is no memory, it is dropped.
    pub fn push(&mut self, label: Label) -> Result<(), WordsStop>
        ensures ok { OnOk result (self.new ≡ self.old ++ label ∷ []) }
        ensures refused { OnErr result (self.new ≡ self.old) }
        ensures memory { OnErr result (result ≡ Err WordsStop.NoMemory) }
    {
        match self.list.push(label) {
            Ok(()) => Ok(()),
            Err(_) => Err(WordsStop::NoMemory),
        }
    }

    pub fn len(&self) -> usize
        ensures { result ≡ length self.now }
    {
        self.list.len()
    }

    pub fn items(&self) -> &[Label]
        ensures { result.now ≡ self.now }
    {
        self.list.as_slice()
    }
}
