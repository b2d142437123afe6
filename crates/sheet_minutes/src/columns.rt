// How many columns the parts of a table have.

/// A number of a candidate takes so many columns of a table.
pub(crate) const NUMBER_COLUMNS: usize = 3;

/// A name is cut to so many columns.
pub(crate) const NAME_COLUMNS: usize = 16;

/// A mark takes so many columns before a vote, with the spaces round it.
pub(crate) const MARK_COLUMNS: usize = 3;

/// A table has so many columns for rounds, of 80.
pub(crate) const ROUND_COLUMNS: usize = 60;
