// What may stand next in an order.

/// What may stand next in an order.
#[derive(Clone, Copy)]
pub(crate) enum Expected {
    Count,
    /// The colon after the count.
    BehindCount,
    Item,
    BehindItem,
    /// A candidate in braces.
    Number,
    BehindNumber,
}
