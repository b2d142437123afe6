//! What a value keeps while it lies under a lock.
ghost use Rattle.std.specs.Prelude.{ℕ, List, Option};

/// A value with a list of entries that only grows, and a name that stays.
pub trait Kept {
    /// An entry of the list.
    type Entry;

    /// Plain data about the value.
    type Name;

    /// The list. Each turn leaves it as it was, or adds one entry at its end.
    ghost entries: { Self → List Self.Entry };

    /// The caller number that the entry belongs to, if any.
    ghost owner: { Self.Entry → Option ℕ };

    /// What stays as it was when the lock was made.
    ghost name: { Self → Self.Name };
}
