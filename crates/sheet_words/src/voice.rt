// How sentences are written.
ghost use Rattle.std.specs.Prelude.{[]};
ghost use Rattle.piece_text.specs.Writing.{Writes};
ghost use Rattle.sheet_words.specs.Manner.{Manner, lines};

use byte_edge::{Failed, Sink};
use piece_text::write_bytes;

/// A way to write sentences: what is before each and after it, and how its texts are written.
pub trait Voice {
    ghost manner: { Manner };

    /// Writes what is before a sentence.
    fn begin<K: Sink>(&self, sink: &mut K) -> Result<(), Failed>
        ensures { Writes K.written K.faults sink.old sink.new manner.opening result };

    /// Writes a text of a sentence.
    fn say<K: Sink>(&self, text: &[u8], sink: &mut K) -> Result<(), Failed>
        ensures { Writes K.written K.faults sink.old sink.new (manner.voiced text.now) result };

    /// Writes what is after a sentence.
    fn end<K: Sink>(&self, sink: &mut K) -> Result<(), Failed>
        ensures { Writes K.written K.faults sink.old sink.new manner.closing result };
}

/// A line for each sentence, with the texts as they are.
pub struct Lines;

impl Voice for Lines {
    ghost manner = { lines };

    fn begin<K: Sink>(&self, _sink: &mut K) -> Result<(), Failed> {
        Ok(())
    }

    fn say<K: Sink>(&self, text: &[u8], sink: &mut K) -> Result<(), Failed> {
        write_bytes(text, sink)
    }

    fn end<K: Sink>(&self, sink: &mut K) -> Result<(), Failed> {
        write_bytes(b"\n", sink)
    }
}
