// An option and its value.
use crate::import_option::ImportOption;

/// An option and its value, still as text.
#[derive(Clone, Copy)]
pub(crate) struct Pair<'a> {
    pub(crate) option: ImportOption,
    pub(crate) value: &'a str,
}
