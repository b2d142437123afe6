//! One of the two halves of a tie.
ghost use Rattle.std.specs.Prelude.{◌≡◌, []};
ghost use Rattle.number_tie.specs.Share.{single, HoldsOne, number_of};

use crate::share::Share;
use atomic_table::{Badge, Seat};
use std::marker::Model;
use std::mem;

/// A half of a tie. Contracts see which tie it is of, and its number.
///
/// It has no bytes, and may lie beside any value and go to any thread.
#[derive(Drop)]
pub struct Half {
    pub(crate) badge: Badge<Share>,
}

impl Model for Half {
    ghost use Rattle.number_tie.specs.Half.{SeenHalf};
    ghost use Rattle.number_tie.specs.Share.{HoldsOne, number_of};

    ghost Value = { SeenHalf };

    ghost view = { λ h. record { tie = h.badge.table_id; number = number_of h.badge.views } };

    ghost invariant = { λ h. HoldsOne h.badge.views };
}

/// The seat of a half. Its place stays blank until the half is put back.
pub(crate) fn lifted(badge: &mut Badge<Share>) -> Seat<(), Share>
    requires { HoldsOne badge.old.views }
    ensures own { result.table_id ≡ badge.old.table_id }
    ensures half { result.me ≡ (single (number_of badge.old.views), []) }
{
    mem::replace(badge, Badge::blank()).into_seat()
}
