/// What a candidate is in a count.
#[derive(Clone, Copy, Debug, PartialEq, Eq)]
pub enum State {
    Hopeful,
    Elected,
    Defeated,
    Withdrawn,
}
