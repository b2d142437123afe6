// Why no record was read.
ghost use Rattle.std.specs.Prelude.{◌≡◌};
ghost use Rattle.table_text.specs.declared.text_stop.TextStop.TheVariants.{NoMemory as no_memory, Fault as fault};

use crate::{NoMemory, TextFault};

/// Why no record was read: the text is no table, or memory is wanted.
#[derive(Clone, Copy, Debug, PartialEq, Eq, Drop)]
pub enum TextStop {
    Fault(TextFault),
    NoMemory,
}

impl From<TextFault> for TextStop {
    ghost from_gives = { λ why stop. stop ≡ fault why };

    fn from(why: TextFault) -> TextStop {
        TextStop::Fault(why)
    }
}

impl From<NoMemory> for TextStop {
    ghost from_gives = { λ _ stop. stop ≡ no_memory };

    fn from(_: NoMemory) -> TextStop {
        TextStop::NoMemory
    }
}
