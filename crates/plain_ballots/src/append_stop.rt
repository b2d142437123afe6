// Why lines were not added.

/// Why the lines of another list were not added.
#[derive(Clone, Copy, Debug, PartialEq, Eq, Drop)]
pub enum AppendStop {
    /// With these lines there would be more than 999,999,999 ballots.
    TooMany,
    NoMemory,
}
