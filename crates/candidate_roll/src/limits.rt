/// A candidate's name has at most this many bytes.
pub const MOST_NAME_BYTES: usize = 200;

/// An election's title has at most this many bytes.
pub const MOST_TITLE_BYTES: usize = 1000;
