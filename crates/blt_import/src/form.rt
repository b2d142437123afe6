// Inputs of the form that the words ask for.
ghost use Rattle.std.specs.Prelude.{◌≡◌};
ghost use Rattle.import_words.specs.Asks.{AreEnough};
ghost use Rattle.blt_import.specs.Forms.{form_of, layout_of};
ghost use Rattle.blt_import.specs.Owed.{Reads};

use crate::pref_form::read_text;
use crate::read::Read;
use crate::read_stop::ReadStop;
use crate::table_form::read_by_layout;
use ballot_table::Layout as TableLayout;
use import_words::{Asked, Layout};
use std::alloc::Global;

/// What an input says in the form that the words ask for, or its first fault.
pub(crate) fn read_form(alloc: Global, asked: &Asked, input: &[u8]) -> Result<Read, ReadStop>
    requires { AreEnough asked.now.layout asked.now.roll.candidates }
    ensures { Reads (form_of asked.now) input.now result }
{
    match layout_of(asked.layout) {
        Some(layout) => read_by_layout(alloc, asked, layout, input),
        None => read_text(alloc, asked, input),
    }
}

/// The layout of the table that the input is to be, if it is to be one.
fn layout_of(layout: Layout) -> Option<TableLayout>
    ensures { result ≡ layout_of layout }
{
    match layout {
        Layout::Ranks => Some(TableLayout::Ranks),
        Layout::Choices => Some(TableLayout::Choices),
        Layout::List => Some(TableLayout::List),
        Layout::Preflib => None,
    }
}
