/// Candidates of an iteration that a sentence names.
#[derive(Clone, Copy)]
pub(crate) enum Group {
    /// Who has the quota.
    Reached,
    /// Who is elected.
    Elected,
    /// Who has the quota and is not elected, for want of a seat.
    LeftOut,
    /// Who is left out with as many votes as somebody who is elected.
    LeftByLot,
    /// Whose keep value is capped.
    Capped,
    /// Who is tied for a defeat.
    Tied,
}
