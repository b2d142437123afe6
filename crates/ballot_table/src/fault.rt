// A fault of a record.
use crate::TableKind;

/// A fault of a record, with its column from 1; of `NoColumn` and `BadWithdrawn` with its place in the list of
/// the words, from 1.
#[derive(Clone, Copy)]
pub(crate) struct Fault {
    pub kind: TableKind,
    pub place: usize,
}
