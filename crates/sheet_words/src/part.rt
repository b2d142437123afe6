/// A text of a sentence.
#[derive(Drop)]
pub(crate) enum Part<'a> {
    /// Words, a name, or votes as text.
    Words(&'a [u8]),
    Number(u64),
}
