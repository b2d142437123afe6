// What is found, held against what is due.
use std::fmt::Debug;
use std::process::Abort;

/// Both are the same.
pub(crate) fn same<T: PartialEq + Debug + Copy>(rt: &impl Abort, found: T, due: T) {
    assert_eq!(rt; found, due);
}
