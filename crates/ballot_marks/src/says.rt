// What a rank says.

/// What a rank that is not blank says.
#[derive(Clone, Copy, Debug, PartialEq, Eq)]
pub enum Says {
    /// This candidate has the rank.
    One(u32),
    /// More than one candidate has it.
    Over,
}
