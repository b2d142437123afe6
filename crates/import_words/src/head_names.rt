// Names in the head of a table.

/// Where a candidate's name is in the head of a column.
#[derive(Clone, Copy, Debug, PartialEq, Eq)]
pub enum HeadNames {
    /// The whole field is the name.
    Whole,
    /// The name is in brackets at the field's end.
    Bracketed,
}
