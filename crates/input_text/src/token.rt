use crate::What;

/// A token, with the place of its first byte and the place after its last.
#[derive(Clone, Copy, Debug, PartialEq, Eq)]
pub struct Token {
    pub at: usize,
    pub stop: usize,
    pub what: What,
}
