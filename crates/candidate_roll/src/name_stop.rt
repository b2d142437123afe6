// Why bytes are no name.

/// Why bytes are no name. Too many bytes come before a wrong one.
#[derive(Clone, Copy, Debug, PartialEq, Eq, Drop)]
pub enum NameStop {
    /// More bytes than the name may have.
    TooLong,
    /// The place, from 0, of the first control byte or double quote.
    BadByte(usize),
    NoMemory,
}
