// How sentences stand on a page.
ghost use Rattle.std.specs.Prelude.{◌≡◌};
ghost use Rattle.std.specs.Char.{is_ascii};
ghost use Rattle.std.specs.List.{list_all};
ghost use Rattle.piece_text.specs.Writing.{Writes};
ghost use Rattle.sheet_page.specs.Told.{isolated_text, items, voiced_text};

use byte_edge::{Failed, Sink};
use page_tree::{write_end, write_start, write_text};
use sheet_words::Voice;

/// A sentence is an item of a list, and its texts are texts of the page: one that is no ASCII is set apart
/// from the others.
pub(crate) struct Items;

impl Voice for Items {
    ghost manner = { items };

    fn begin<K: Sink>(&self, sink: &mut K) -> Result<(), Failed> {
        write_start(b"li", &[], sink)
    }

    fn say<K: Sink>(&self, text: &[u8], sink: &mut K) -> Result<(), Failed> {
        write_spoken(text, sink)
    }

    fn end<K: Sink>(&self, sink: &mut K) -> Result<(), Failed> {
        write_end(b"li", sink)
    }
}

fn write_spoken<K: Sink>(text: &[u8], sink: &mut K) -> Result<(), Failed>
    ensures { Writes K.written K.faults sink.old sink.new (voiced_text text.now) result }
{
    if is_ascii(text) {
        write_text(text, sink)
    } else {
        write_isolated(text, sink)
    }
}

/// Writes a text that is set apart.
fn write_isolated<K: Sink>(text: &[u8], sink: &mut K) -> Result<(), Failed>
    ensures { Writes K.written K.faults sink.old sink.new (isolated_text text.now) result }
{
    write_start(b"bdi", &[], sink)?;
    write_text(text, sink)?;
    write_end(b"bdi", sink)
}

fn is_ascii(text: &[u8]) -> bool
    ensures { result ≡ list_all is_ascii text.now }
{
    text.iter().all(|byte| byte.is_ascii())
}
