// What the words say of a table's head.

/// What the words say of a table's head.
#[derive(Clone, Copy, Debug, PartialEq, Eq)]
pub enum HeadWords {
    /// Nothing: it is the first record, which does not read as a row.
    Unsaid,
    /// The table has none.
    Absent,
    /// It is so many records, whatever is in them.
    Records(u32),
}
