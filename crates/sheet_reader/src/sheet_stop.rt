/// Why a text gave no values.
#[derive(Clone, Copy, Debug, PartialEq, Eq, Drop)]
pub enum SheetStop {
    /// It has not the form of a sheet.
    Malformed,
    /// Memory ran out.
    NoMemory,
}
