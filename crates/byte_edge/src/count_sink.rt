// A sink that counts bytes and never fails.
ghost use Rattle.std.specs.Prelude.{◌≡◌, ◌+◌, ◌-◌, ◌^◌, ◌<◌, None, Ok, IsOk, min, length};

use crate::{Failed, Sink};
use std::marker::Model;

/// A sink that keeps only how many bytes it took, and never fails.
#[derive(Drop)]
pub struct CountSink {
    taken: u64,
}

impl Model for CountSink {
    ghost use Rattle.std.specs.Prelude.{ℕ};

    ghost Value = { ℕ };

    ghost view = { λ s. s.taken };
}

impl CountSink {
    pub fn new() -> Self
        ensures { result ≡ 0 }
    {
        CountSink { taken: 0 }
    }

    /// How many bytes were taken, at most the greatest u64.
    pub fn taken(&self) -> u64
        ensures { result ≡ self.now }
    {
        self.taken
    }
}

impl Sink for CountSink {
    ghost written = { λ _. None };

    ghost faults = { λ _. 0 };

    fn write(&mut self, piece: &[u8]) -> Result<usize, Failed>
        requires { 0 < length piece.now }
        ensures whole { result ≡ Ok (length piece.now) }
        ensures taken { self.new ≡ min (self.old + length piece.now) (2 ^ 64 - 1) }
    {
        self.taken = self.taken.saturating_add(piece.len() as u64);
        Ok(piece.len())
    }

    fn flush(&mut self) -> Result<(), Failed>
        ensures never_fails { IsOk result }
        ensures taken { self.new ≡ self.old }
    {
        Ok(())
    }
}
