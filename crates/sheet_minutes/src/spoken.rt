// How sentences stand in the text.
ghost use Rattle.piece_text.specs.Writing.{Writes};
ghost use Rattle.sheet_minutes.specs.Minutes.{spoken};

use crate::plain::write_plain;
use byte_edge::{Failed, Sink};
use piece_text::write_bytes;
use sheet_words::Voice;

/// A line for each sentence.
pub(crate) struct Spoken;

impl Voice for Spoken {
    ghost manner = { spoken };

    fn begin<K: Sink>(&self, _sink: &mut K) -> Result<(), Failed> {
        Ok(())
    }

    fn say<K: Sink>(&self, text: &[u8], sink: &mut K) -> Result<(), Failed> {
        write_plain(text, sink)
    }

    fn end<K: Sink>(&self, sink: &mut K) -> Result<(), Failed> {
        write_bytes(b"\n", sink)
    }
}
