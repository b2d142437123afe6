// Reading a source to its end.
ghost use Rattle.std.specs.Prelude.{◌≡◌, ◌≤◌, length, vec_len, IfOk, OnOk, OnErr, IsErrOf};
ghost use Rattle.std.specs.Io.KnownBytes.{Consumes, IsAtEnd};
ghost use Rattle.byte_edge.specs.Faults.{HasCause};
ghost use Rattle.byte_edge.specs.Bytes.{IsLongerThan, IsWithin, LosesFront};

use crate::{Failed, Source};
use std::alloc::{AllocError, Global};

// How many bytes are asked for at a time.
const CHUNK: usize = 1 << 16;

/// Why a source was not read to its end.
#[derive(Clone, Copy, Debug, PartialEq, Eq)]
pub enum ReadStop {
    /// A read failed.
    Failed,
    /// More bytes were left than the limit allows.
    TooLong,
    /// There was not enough memory.
    NoMemory,
}

impl From<Failed> for ReadStop {
    ghost use Rattle.std.specs.Prelude.{◌≡◌};
    ghost use Rattle.byte_edge.specs.declared.reading.ReadStop.{ReadStop};

    ghost from_gives = { λ _ stop. stop ≡ ReadStop.Failed };

    fn from(_: Failed) -> Self {
        ReadStop::Failed
    }
}

impl From<AllocError> for ReadStop {
    ghost use Rattle.std.specs.Prelude.{◌≡◌};
    ghost use Rattle.byte_edge.specs.declared.reading.ReadStop.{ReadStop};

    ghost from_gives = { λ _ stop. stop ≡ ReadStop.NoMemory };

    fn from(_: AllocError) -> Self {
        ReadStop::NoMemory
    }
}

/// Reads all that is left. After a refusal the bytes read so far are given up, so the source has lost
/// them. The answer is `TooLong` exactly where more than `limit` bytes were left, no read failed and
/// there was enough memory; of a source that doesn't tell its bytes a contract can't say how many
/// were left.
pub fn read_all<S: Source>(alloc: Global, source: &mut S, limit: usize) -> Result<Vec<u8>, ReadStop>
    ensures all { IfOk result (λ bytes. Consumes (S.left source.old) (S.left source.new) bytes.items) }
    ensures end { OnOk result (IsAtEnd (S.left source.new)) }
    ensures within { IfOk result (λ bytes. length bytes.items ≤ limit) }

    ensures fits { OnOk result (IsWithin limit (S.left source.old)) }
    ensures too_long { IsErrOf result ReadStop.TooLong → IsLongerThan limit (S.left source.old) }
    ensures given_up { OnErr result (LosesFront (S.left source.old) (S.left source.new)) }

    ensures faults { HasCause (S.faults source.old) (S.faults source.new) result }
{
    let mut bytes = Vec::new(alloc);
    let mut buffer = zeroes(alloc, CHUNK)?;
    let chunk = buffer.as_mut_slice();
    loop {
        let n = source.read(chunk)?;
        if n == 0 {
            return Ok(bytes);
        }
        if n > limit - bytes.len() {
            return Err(ReadStop::TooLong);
        }
        bytes.extend_from_slice(&chunk[..n])?;
    }
}

fn zeroes(alloc: Global, len: usize) -> Result<Vec<u8>, AllocError>
    ensures { IfOk result (λ bytes. vec_len bytes ≡ len) }
{
    vec![in alloc; 0; len]
}
