// A writer of std as a sink. It tells no bytes.
ghost use Rattle.std.specs.Prelude.{◌≡◌, ◌<◌, None, IfOk, length};
ghost use Rattle.std.specs.Io.{WritesAtMost};
ghost use Rattle.std.specs.Io.KnownBytes.{WriteAppends, Keeps};
ghost use Rattle.byte_edge.specs.Faults.{CountsFault};

use crate::{Failed, Sink};
use std::io::Write;

/// A sink that writes to a writer of std. Each error of the writer is a fault, and so is a write that
/// takes none of the piece.
#[derive(Drop)]
pub struct StdSink<W> {
    writer: W,
    faults: u64,
}

impl<W: Write> StdSink<W> {
    ghost use Rattle.byte_edge.specs.StdStreams.{writer_of, write_faults};

    pub fn new(writer: W) -> Self
        ensures faults { write_faults result ≡ 0 }
        ensures writer { writer_of result ≡ writer }
    {
        StdSink { writer, faults: 0 }
    }
}

impl<W: Write> Sink for StdSink<W> {
    ghost use Rattle.byte_edge.specs.StdStreams.{writer_of, write_faults};

    ghost written = { λ _. None };

    ghost faults = { write_faults };

    fn write(&mut self, piece: &[u8]) -> Result<usize, Failed>
        requires { 0 < length piece.now }
        ensures bound { WritesAtMost result piece.now }
        ensures some { IfOk result (λ n. 0 < n) }
        ensures faults { CountsFault (write_faults self.old) (write_faults self.new) result }

        // What the writer itself tells of its bytes.
        ensures writer { WriteAppends (W.contents (writer_of self.old)) (W.contents (writer_of self.new))
            result piece.now }
    {
        match self.writer.write(piece) {
            Ok(n) if n > 0 => Ok(n),
            _ => {
                self.faults = self.faults.saturating_add(1);
                Err(Failed)
            }
        }
    }

    fn flush(&mut self) -> Result<(), Failed>
        ensures faults { CountsFault (write_faults self.old) (write_faults self.new) result }
        ensures writer { Keeps (W.contents (writer_of self.old)) (W.contents (writer_of self.new)) }
    {
        if let Ok(()) = self.writer.flush() {
            return Ok(());
        }
        self.faults = self.faults.saturating_add(1);
        Err(Failed)
    }
}
