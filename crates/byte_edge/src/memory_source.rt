// A source over memory that gives so many bytes at a read and fails at the calls that it is told.
ghost use Rattle.std.specs.Prelude.{◌≡◌, ◌<◌, ◌↔◌, Some, min, length, IfOk, IsErr};
ghost use Rattle.std.specs.Io.{ReadsAtMost};
ghost use Rattle.std.specs.Io.KnownBytes.{ReadConsumes};
ghost use Rattle.byte_edge.specs.Faults.{CountsFault};
ghost use Rattle.byte_edge.specs.Scripts.{none_made, with_call, IsNextToFail};

use crate::calls::CallCount;
use crate::{CalmSource, Failed, Source};
use std::marker::Model;

/// A source that has its bytes in memory and fails by a script, for tests of a fault in mid-stream.
#[derive(Drop)]
pub struct MemorySource {
    bytes: CalmSource,
    chunk: usize,
    calls: CallCount,
}

impl Model for MemorySource {
    ghost use Rattle.std.specs.Prelude.{◌<◌};
    ghost use Rattle.byte_edge.specs.Scripts.{SourceScript};

    ghost Value = { SourceScript };

    ghost view = { λ s. record { left = s.bytes; chunk = s.chunk; calls = s.calls } };

    ghost invariant = { λ s. 0 < s.chunk };
}

impl MemorySource {
    /// Gives the bytes, at most `chunk` at a read. The reads with the numbers in `failing`, from 1,
    /// fail.
    pub fn new(bytes: Vec<u8>, chunk: usize, failing: Vec<u64>) -> Self
        requires { 0 < chunk }
        ensures left { result.left ≡ bytes.items }
        ensures chunk { result.chunk ≡ chunk }
        ensures calls { result.calls ≡ none_made failing.items }
    {
        MemorySource {
            bytes: CalmSource::new(bytes),
            chunk,
            calls: CallCount::new(failing),
        }
    }
}

impl Source for MemorySource {
    ghost left = { λ s. Some s.left };

    ghost faults = { λ s. s.calls.faults };

    fn read(&mut self, buf: &mut [u8]) -> Result<usize, Failed>
        requires { 0 < length buf.old }
        ensures bound { ReadsAtMost result buf.new }
        ensures bytes { ReadConsumes (Some self.old.left) (Some self.new.left) result buf.new }
        ensures faults { CountsFault self.old.calls.faults self.new.calls.faults result }

        // Which calls fail, and how many bytes the others give.
        ensures failing { IsErr result ↔ IsNextToFail self.old.calls }
        ensures count { IfOk result (λ n.
            n ≡ min (length self.old.left) (min (length buf.old) self.old.chunk)) }
        ensures calls { self.new.calls ≡ with_call self.old.calls result }
        ensures chunk { self.new.chunk ≡ self.old.chunk }
    {
        self.calls.begin()?;
        let n = buf.len().min(self.chunk);
        self.bytes.read(&mut buf[..n])
    }
}
