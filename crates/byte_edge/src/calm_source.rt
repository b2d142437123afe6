// A source over memory that never fails.
ghost use Rattle.std.specs.Prelude.{◌≡◌, ◌<◌, Some, Ok, min, length};
ghost use Rattle.std.specs.Io.{ReadsAtMost};
ghost use Rattle.std.specs.Io.KnownBytes.{ReadConsumes};

use crate::{Failed, Source};
use std::marker::Model;

/// A source that has its bytes in memory, gives as many as the buffer holds and never fails.
#[derive(Drop)]
pub struct CalmSource {
    bytes: Vec<u8>,
    at: usize,
}

impl Model for CalmSource {
    ghost use Rattle.std.specs.Prelude.{ℕ, ◌≤◌, List, drop, length};

    ghost Value = { List ℕ };

    ghost view = { λ s. drop s.at s.bytes.items };

    ghost invariant = { λ s. s.at ≤ length s.bytes.items };
}

impl CalmSource {
    pub fn new(bytes: Vec<u8>) -> Self
        ensures { result ≡ bytes.items }
    {
        CalmSource { bytes, at: 0 }
    }
}

impl Source for CalmSource {
    ghost left = { λ s. Some s };

    ghost faults = { λ _. 0 };

    fn read(&mut self, buf: &mut [u8]) -> Result<usize, Failed>
        requires { 0 < length buf.old }
        ensures bound { ReadsAtMost result buf.new }
        ensures bytes { ReadConsumes (Some self.old) (Some self.new) result buf.new }
        ensures count { result ≡ Ok (min (length self.old) (length buf.old)) }
    {
        let left = &self.bytes[self.at..];
        let n = left.len().min(buf.len());
        buf[..n].copy_from_slice(&left[..n]);
        self.at += n;
        Ok(n)
    }
}
