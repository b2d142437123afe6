// Texts in order.
ghost use Rattle.std.specs.Prelude.{◌≡◌, [], ◌∷◌, ◌++◌, length, OnOk, OnErr};

use crate::Text;
use plain_ballots::NoMemory;
use std::alloc::Global;
use std::marker::Model;

/// Texts in order.
#[derive(Debug, Drop)]
pub struct Texts {
    list: Vec<Text>,
}

impl Model for Texts {
    ghost use Rattle.std.specs.Prelude.{List, ℕ};

    ghost Value = { List (List ℕ) };

    ghost view = { λ texts. texts.list.items };
}

impl Texts {
    pub fn new(alloc: Global) -> Texts
        ensures { result ≡ [] }
    {
        Texts {
            list: Vec::new(alloc),
        }
    }

    /// Puts a text after the others.
    pub fn push(&mut self, text: Text) -> Result<(), NoMemory>
        ensures ok { OnOk result (self.new ≡ self.old ++ text ∷ []) }
        ensures refused { OnErr result (self.new ≡ self.old) }
    {
        match self.list.push(text) {
            Ok(()) => Ok(()),
            Err(_) => Err(NoMemory),
        }
    }

    pub fn len(&self) -> usize
        ensures { result ≡ length self.now }
    {
        self.list.len()
    }

    pub fn items(&self) -> &[Text]
        ensures { result.now ≡ self.now }
    {
        self.list.as_slice()
    }
}
