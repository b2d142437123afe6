// A piece of what is written.
use crate::cell::Cell;

/// A piece of what is written.
#[derive(Drop)]
pub enum Piece<'a, const P: usize> {
    /// Bytes as they are.
    Raw(&'a [u8]),
    /// A whole number.
    Number(u64),
    /// A string of JSON.
    Quoted(Cell<'a, P>),
    /// The start of an element without attributes.
    Start(&'a [u8]),
    /// The end of an element.
    End(&'a [u8]),
    /// A text of a page.
    Text(Cell<'a, P>),
    /// The start of an element up to its attributes.
    Begin(&'a [u8]),
    /// An attribute, by its name.
    With(&'a [u8], Cell<'a, P>),
    /// The end of a start, after its attributes.
    Within,
}
