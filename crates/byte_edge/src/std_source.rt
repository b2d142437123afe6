// A reader of std as a source. It tells no bytes.
ghost use Rattle.std.specs.Prelude.{◌≡◌, ◌<◌, None, length};
ghost use Rattle.std.specs.Io.{ReadsAtMost};
ghost use Rattle.std.specs.Io.KnownBytes.{ReadConsumes};
ghost use Rattle.byte_edge.specs.Faults.{CountsFault};

use crate::{Failed, Source};
use std::io::Read;

/// A source that reads from a reader of std. Each error of the reader is a fault.
#[derive(Drop)]
pub struct StdSource<R> {
    reader: R,
    faults: u64,
}

impl<R: Read> StdSource<R> {
    ghost use Rattle.byte_edge.specs.StdStreams.{reader_of, read_faults};

    pub fn new(reader: R) -> Self
        ensures faults { read_faults result ≡ 0 }
        ensures reader { reader_of result ≡ reader }
    {
        StdSource { reader, faults: 0 }
    }
}

impl<R: Read> Source for StdSource<R> {
    ghost use Rattle.byte_edge.specs.StdStreams.{reader_of, read_faults};

    ghost left = { λ _. None };

    ghost faults = { read_faults };

    fn read(&mut self, buf: &mut [u8]) -> Result<usize, Failed>
        requires { 0 < length buf.old }
        ensures bound { ReadsAtMost result buf.new }
        ensures faults { CountsFault (read_faults self.old) (read_faults self.new) result }

        // What the reader itself tells of its bytes.
        ensures reader { ReadConsumes (R.remaining (reader_of self.old)) (R.remaining (reader_of self.new))
            result buf.new }
    {
        if let Ok(n) = self.reader.read(buf) {
            return Ok(n);
        }
        self.faults = self.faults.saturating_add(1);
        Err(Failed)
    }
}
