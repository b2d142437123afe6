/// Candidates of an iteration, by what a lot had to do with them.
#[derive(Clone, Copy, Debug, PartialEq, Eq)]
pub enum Group {
    /// Who was tied for defeat.
    Tied,
    /// Whom a lot gave a seat.
    Seated,
    /// Whom a lot left without one.
    Left,
}
