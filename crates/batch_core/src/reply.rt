// The reply to a call.

/// The reply to a call. `Entered`, `Corrected`, `Withdrawn` and `Struck` say that the call was
/// carried out; every other reply changes nothing. A number is a revision of the batch.
#[derive(Clone, Copy, Debug, PartialEq, Eq, Drop)]
pub enum Reply {
    /// The batch stands, at revision 1.
    Entered,
    /// The batch has new ballots, at this revision.
    Corrected(u32),
    /// The batch is gone, at this revision.
    Withdrawn(u32),
    Frozen,
    /// The batch was entered before. This is its current revision.
    Exists(u32),
    /// The batch was never entered.
    Unknown,
    /// The batch was withdrawn, at this revision.
    Gone(u32),
    /// The revision that the call names isn't the current one, which is this.
    Stale(u32),
    /// The batch is at the last revision.
    Spent,
    Struck,
    AlreadyStruck,
}
