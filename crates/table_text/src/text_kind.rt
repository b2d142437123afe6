/// Why a text is no table.
#[derive(Clone, Copy, Debug, PartialEq, Eq)]
pub enum TextKind {
    /// A control byte, or a carriage return outside quotes that no line feed follows.
    BadByte,
    /// A quote within a field that begins without one, or a byte right after a closing quote.
    BadQuote,
    /// A record of no bytes.
    EmptyLine,
    /// The text ends within quotes, or has no record.
    Ended,
    /// The head has separators of two kinds.
    UnclearSeparator,
}
