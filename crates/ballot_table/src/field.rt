// The text of one field.
ghost use Rattle.std.specs.Prelude.{◌≡◌};
ghost use Rattle.ballot_table.specs.Sheets.{text_of};

use crate::edges::trimmed;

/// A field of a table: where it is among the table's bytes, or its bytes without quotes.
#[derive(Drop)]
pub(crate) enum Field<'a> {
    Standing(&'a [u8]),
    Unquoted(Vec<u8>),
}

impl Field<'_> {
    /// Its text.
    #[inline]
    pub fn text(&self) -> &[u8]
        ensures { result.now ≡ text_of self.now }
    {
        match self {
            Field::Standing(bytes) => trimmed(bytes),
            Field::Unquoted(bytes) => trimmed(bytes.as_slice()),
        }
    }
}
