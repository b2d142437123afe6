// The places of the shared work at which a gate is passed.

/// A place in the work that is shared among threads.
#[derive(Clone, Copy, Debug, PartialEq, Eq)]
pub enum Place {
    /// Within the turn of the shard with this number, before the turn of the register.
    InTurn(u32),
    /// At the start of the lane with this number, in a distribution of ballots.
    Lane(u32),
}
