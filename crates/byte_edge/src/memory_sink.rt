// A sink over memory that takes so many bytes at a write and fails at the calls that it is told.
ghost use Rattle.std.specs.Prelude.{◌≡◌, ◌<◌, ◌-◌, ◌⊎◌, ◌↔◌, Some, [], min, length, IfOk, IsErr};
ghost use Rattle.std.specs.Io.{WritesAtMost};
ghost use Rattle.std.specs.Io.KnownBytes.{WriteAppends};
ghost use Rattle.byte_edge.specs.Faults.{CountsFault};
ghost use Rattle.byte_edge.specs.Scripts.{none_made, with_call, IsNextToFail};

use crate::calls::CallCount;
use crate::{Failed, NoMemory, Sink};
use std::alloc::Global;
use std::marker::Model;

/// A sink that takes its bytes into memory and fails by a script, for tests of a fault in mid-stream.
#[derive(Drop)]
pub struct MemorySink {
    bytes: Vec<u8>,
    room: usize,
    chunk: usize,
    calls: CallCount,
}

impl Model for MemorySink {
    ghost use Rattle.std.specs.Prelude.{◌-◌, ◌<◌, ◌≤◌, vec_len, vec_capacity};
    ghost use Rattle.byte_edge.specs.Scripts.{SinkScript};

    ghost Value = { SinkScript };

    ghost view = { λ s. record {
      taken = s.bytes.items;
      room = s.room - vec_len s.bytes;
      chunk = s.chunk;
      calls = s.calls;
    } };

    ghost invariant = { λ s. (0 < s.chunk)
        × (vec_len s.bytes ≤ s.room)
        × (s.room ≤ vec_capacity s.bytes) };
}

impl MemorySink {
    /// Takes at most `room` bytes, at most `chunk` at a write. The calls with the numbers in `failing`,
    /// from 1, fail, writes and flushes numbered together. So does a write that finds no room left.
    pub fn with_room(
        alloc: Global,
        room: usize,
        chunk: usize,
        failing: Vec<u64>,
    ) -> Result<Self, NoMemory>
        requires { 0 < chunk }
        ensures taken { IfOk result (λ sink. sink.taken ≡ []) }
        ensures room { IfOk result (λ sink. sink.room ≡ room) }
        ensures chunk { IfOk result (λ sink. sink.chunk ≡ chunk) }
        ensures calls { IfOk result (λ sink. sink.calls ≡ none_made failing.items) }
    {
        Ok(MemorySink {
            bytes: Vec::with_capacity(alloc, room)?,
            room,
            chunk,
            calls: CallCount::new(failing),
        })
    }

    /// The bytes taken so far.
    pub fn bytes(&self) -> &[u8]
        ensures { result.now ≡ self.now.taken }
    {
        &self.bytes
    }
}

impl Sink for MemorySink {
    ghost written = { λ s. Some s.taken };

    ghost faults = { λ s. s.calls.faults };

    fn write(&mut self, piece: &[u8]) -> Result<usize, Failed>
        requires { 0 < length piece.now }
        ensures bound { WritesAtMost result piece.now }
        ensures some { IfOk result (λ n. 0 < n) }
        ensures bytes { WriteAppends (Some self.old.taken) (Some self.new.taken) result piece.now }
        ensures faults { CountsFault self.old.calls.faults self.new.calls.faults result }

        // Which calls fail, and how many bytes the others take.
        ensures failing { IsErr result ↔ (IsNextToFail self.old.calls ⊎ (self.old.room ≡ 0)) }
        ensures count { IfOk result (λ n.
            n ≡ min (length piece.now) (min self.old.chunk self.old.room)) }
        ensures room { IfOk result (λ n. self.new.room ≡ self.old.room - n) }
        ensures room_kept { IsErr result → self.new.room ≡ self.old.room }
        ensures calls { self.new.calls ≡ with_call self.old.calls result }
        ensures chunk { self.new.chunk ≡ self.old.chunk }
    {
        self.calls.begin()?;
        let room = self.room - self.bytes.len();
        if room == 0 {
            return Err(self.calls.fail());
        }
        let n = piece.len().min(self.chunk).min(room);
        match self.bytes.extend_from_slice(&piece[..n]) {
            Ok(()) => Ok(n),
            Err(_) => unreachable!(),
        }
    }

    fn flush(&mut self) -> Result<(), Failed>
        ensures taken { self.new.taken ≡ self.old.taken }
        ensures faults { CountsFault self.old.calls.faults self.new.calls.faults result }
        ensures failing { IsErr result ↔ IsNextToFail self.old.calls }
        ensures room { self.new.room ≡ self.old.room }
        ensures calls { self.new.calls ≡ with_call self.old.calls result }
        ensures chunk { self.new.chunk ≡ self.old.chunk }
    {
        self.calls.begin()
    }
}
