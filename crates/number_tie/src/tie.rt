//! What the two halves of a tie share.
ghost use Rattle.std.specs.Prelude.{◌≡◌, ◌+◌, [], ◌∷◌, IfOk};
ghost use Rattle.number_tie.specs.Share.{single, whole, merged, HoldsOne, number_of};

use crate::half::{Half, lifted};
use crate::no_memory::NoMemory;
use crate::rule::{Agree, Apart, Both, OneNumber, Raise};
use crate::share::Share;
use atomic_table::{Badge, Seat, Table};
use std::alloc::Global;
use std::marker::Model;

/// A tie between two numbers. Contracts see which tie it is.
///
/// None of its calls waits, and none but [`Tie::try_new`] takes memory.
#[derive(Drop)]
pub struct Tie {
    table: Table<(), Share, (), OneNumber, Global>,
}

impl Model for Tie {
    ghost use Rattle.std.specs.Prelude.{◌≡◌};
    ghost use Rattle.atomic_table.specs.Seated.{TableId, table_id_coded};

    ghost Value = { TableId };

    ghost coded = { table_id_coded };

    ghost view = { λ t. t.table.shared.table_id };

    ghost invariant = { λ t. t.table.shared.table_id.words ≡ 1 };
}

impl Tie {
    /// A new tie with its two halves, whose numbers are 0.
    pub fn try_new(alloc: Global) -> Result<(Tie, Half, Half), NoMemory>
        ensures halves { IfOk result (λ t. (t.1.tie ≡ t.0) × (t.2.tie ≡ t.0)) }
        ensures zero { IfOk result (λ t. (t.1.number ≡ 0) × (t.2.number ≡ 0)) }
    {
        let (table, seat) = Table::of_words(alloc, &[0], &())?;
        let tie = Tie { table };
        let (one, other) = tie.parted(seat);
        Ok((tie, Half { badge: one }, Half { badge: other }))
    }

    /// Tells that the numbers of both halves are equal. They stay as they are.
    pub fn agree(&self, one: &mut Half, other: &mut Half)
        requires { (one.old.tie ≡ self.now) × (other.old.tie ≡ self.now) }
        ensures equal { one.old.number ≡ other.old.number }
        ensures same { (one.new ≡ one.old) × (other.new ≡ other.old) }
    {
        let mut seat = self.joined(&mut one.badge, &mut other.badge);
        self.table.shared.store::<Agree>(&mut seat, 0, 0);
        (one.badge, other.badge) = self.parted(seat);
    }

    /// Raises the numbers of both halves by one, and tells that they were equal.
    pub fn raise(&self, one: &mut Half, other: &mut Half)
        requires { (one.old.tie ≡ self.now) × (other.old.tie ≡ self.now) }
        ensures equal { one.old.number ≡ other.old.number }
        ensures raised { (one.new.number ≡ one.old.number + 1) × (other.new.number ≡ other.old.number + 1) }
        ensures same { (one.new.tie ≡ one.old.tie) × (other.new.tie ≡ other.old.tie) }
    {
        let mut seat = self.joined(&mut one.badge, &mut other.badge);
        self.table.shared.store::<Raise>(&mut seat, 0, 0);
        (one.badge, other.badge) = self.parted(seat);
    }

    // The seat of both halves, whose places stay blank.
    fn joined(&self, one: &mut Badge<Share>, other: &mut Badge<Share>) -> Seat<(), Share>
        requires own { (one.old.table_id ≡ self.now) × (other.old.table_id ≡ self.now) }
        requires halves { HoldsOne one.old.views × HoldsOne other.old.views }
        ensures own { result.table_id ≡ self.now }
        ensures both { result.me
            ≡ (merged (single (number_of one.old.views)) (single (number_of other.old.views)), []) }
    {
        let mut seat = lifted(one);
        self.table
            .shared
            .join_seat::<Both>(&mut seat, lifted(other));
        seat
    }

    // Both halves again.
    fn parted(&self, mut seat: Seat<(), Share>) -> (Badge<Share>, Badge<Share>)
        requires own { seat.table_id ≡ self.now }
        requires both { seat.me ≡ (whole seat.me.0.number, []) }
        ensures own { (result.0.table_id ≡ self.now) × (result.1.table_id ≡ self.now) }
        ensures one { result.0.views ≡ single seat.me.0.number ∷ [] }
        ensures other { result.1.views ≡ single seat.me.0.number ∷ [] }
    {
        let other = self.table.shared.split_seat::<Apart>(&mut seat);
        (seat.into_badge(), other.into_badge())
    }
}
