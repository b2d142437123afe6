/// What a token says; of a string or a word the reader has the bytes.
#[derive(Clone, Copy, Debug, PartialEq, Eq)]
pub enum What {
    Number(u32),
    /// The number after a `-`.
    Minus(u32),
    Text,
    Word,
}
