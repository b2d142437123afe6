// What is audited.

/// What the words of an audit ask for.
#[derive(Clone, Copy, Debug, PartialEq, Eq)]
pub enum AuditAsked {
    /// The text of a day, with the day's file after it.
    Day,
    /// The summary of the made day of this number, from 1 to 1,000.
    Trial(u32),
}
