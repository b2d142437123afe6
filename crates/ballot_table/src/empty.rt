// What becomes of a row whose fields are all blank.

/// What becomes of a row whose fields are all blank: the table is refused, or the row is judged as any other,
/// or stands for no ballot.
#[derive(Clone, Copy, Debug, PartialEq, Eq)]
pub enum Empty {
    Refuse,
    Keep,
    Drop,
}
