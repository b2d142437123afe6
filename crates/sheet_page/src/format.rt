/// How a sheet is shown.
#[derive(Clone, Copy, Debug, PartialEq, Eq)]
pub enum Format {
    /// A page for people.
    Html,
    /// A table of all iterations, for spreadsheets.
    Csv,
    /// The same table after a byte order mark, which tells spreadsheets that it is UTF-8.
    MarkedCsv,
    /// All values, for programs.
    Json,
    /// A text for a terminal, a mail or the minutes.
    Text,
}
