/// A piece of what is written.
#[derive(Drop)]
pub(crate) enum Piece<'a> {
    /// Bytes as they are.
    Raw(&'a [u8]),
    /// A text, as a terminal is given it.
    Plain(&'a [u8]),
    Count(u64),
    /// A whole number at the right of so many columns.
    RightCount(usize, u64),
}
