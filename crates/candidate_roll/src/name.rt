// A name or a title.
ghost use Rattle.std.specs.Prelude.{◌≡◌, ◌↔◌, IsTrue, IfOk, IfErr, OnOk};
ghost use Rattle.candidate_roll.specs.Name.{IsName, IsNameStop, IsPrintable};

use crate::{NameStop, NoMemory};
use std::alloc::Global;
use std::marker::Model;

/// A candidate's name or an election's title: at most `MAX` bytes, none of them a control byte or a
/// double quote.
#[derive(Debug, Drop)]
pub struct Name<const MAX: usize> {
    bytes: Vec<u8>,
}

impl<const MAX: usize> Model for Name<MAX> {
    ghost use Rattle.std.specs.Prelude.{List, ℕ};
    ghost use Rattle.candidate_roll.specs.Name.{IsName};

    ghost Value = { List ℕ };

    ghost view = { λ n. n.bytes.items };

    ghost invariant = { λ n. IsName MAX n.bytes.items };
}

impl<const MAX: usize> Name<MAX> {
    /// A name of these bytes, or why they are none.
    pub fn try_new(alloc: Global, bytes: &[u8]) -> Result<Name<MAX>, NameStop>
        ensures ok { IfOk result (λ name. name ≡ bytes.now) }
        ensures sound { OnOk result (IsName MAX bytes.now) }
        ensures stop { IfErr result (IsNameStop MAX bytes.now) }
    {
        if bytes.len() > MAX {
            return Err(NameStop::TooLong);
        }
        for (at, byte) in bytes.iter().enumerate() {
            if !is_printable(*byte) {
                return Err(NameStop::BadByte(at));
            }
        }
        match Vec::from_slice(alloc, bytes) {
            Ok(bytes) => Ok(Name { bytes }),
            Err(_) => Err(NameStop::NoMemory),
        }
    }

    pub fn copy(&self, alloc: Global) -> Result<Name<MAX>, NoMemory>
        ensures { IfOk result (λ name. name ≡ self.now) }
    {
        match Vec::from_slice(alloc, self.bytes()) {
            Ok(bytes) => Ok(Name { bytes }),
            Err(_) => Err(NoMemory),
        }
    }

    pub fn bytes(&self) -> &[u8]
        ensures value { result.now ≡ self.now }
        ensures name { IsName MAX result.now }
    {
        self.bytes.as_slice()
    }
}

fn is_printable(byte: u8) -> bool
    ensures { IsTrue result ↔ IsPrintable byte }
{
    byte >= 32 && byte != b'"'
}
