// The rules of a count.

/// By which rule a count went.
#[derive(Clone, Copy, Debug, PartialEq, Eq)]
pub enum CountRule {
    Meek,
    Warren,
}
