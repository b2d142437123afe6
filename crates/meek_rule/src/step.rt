/// What the rule did in an iteration.
#[derive(Clone, Copy, Debug, PartialEq, Eq)]
pub enum Step {
    /// Somebody reached the quota and was elected.
    Elected,
    /// The elected got new keep values.
    Iterate,
    /// This candidate was defeated.
    Defeat(u32),
}
