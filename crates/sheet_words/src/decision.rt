/// What an iteration decided, or a reason of it, that a sentence says.
#[derive(Clone, Copy)]
pub(crate) enum Decision {
    /// All who have the quota are elected.
    Election,
    /// More have the quota than seats are left.
    Arrival,
    /// Who of them is elected, and why.
    Choice,
    /// Whose keep value is capped.
    Cap,
    /// The candidate of this number is defeated, and nobody was tied with it.
    Defeat(u32),
    /// Who was tied for a defeat.
    Tie,
    /// The candidate of this number is defeated, by the lots.
    Lot(u32),
}
