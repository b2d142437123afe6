/// Why a text gave no values.
#[derive(Clone, Copy, Debug, PartialEq, Eq, Drop)]
pub enum DayStop {
    /// It has not the form of the text of a day.
    Malformed,
    /// Memory ran out.
    NoMemory,
}
