// The places of a count.

/// With how many decimal places a count went.
#[derive(Clone, Copy, Debug, PartialEq, Eq)]
pub enum Places {
    Six,
    Seven,
    Eight,
    Nine,
}
