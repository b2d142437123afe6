//! The one refusal of this crate.

/// There was no memory for a lock. The value comes back.
#[derive(Drop)]
pub struct NewBack<T> {
    /// The value that was to lie under the lock, as it was.
    pub value: T,
}
