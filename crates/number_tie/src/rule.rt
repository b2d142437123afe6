//! The rule of a tie, that all its shares have one number, and the steps that keep it.
//! These types are for the proofs: none of them has a value.
use crate::share::Share;
use atomic_table::{Join, Play, Split, TableRule};

/// All shares of a tie have one number.
pub struct OneNumber;

impl TableRule<(), Share, ()> for OneNumber {
    ghost use Rattle.number_tie.specs.Share.{whole};
    ghost use Rattle.number_tie.specs.Tied.{Tied};

    ghost holds = { λ _ s. Tied s };

    ghost first = { λ _. whole 0 };
}

/// Two shares become one.
pub struct Both;

impl Join<Share> for Both {
    ghost use Rattle.number_tie.specs.Share.{merged, spent};

    ghost both = { merged };

    ghost spent = { spent };
}

/// One share becomes two.
pub struct Apart;

impl Split<Share> for Apart {
    ghost use Rattle.number_tie.specs.Share.{single};

    ghost left = { λ v. single v.number };

    ghost right = { λ v. single v.beside };
}

/// A step of both shares together that leaves their number.
pub struct Agree;

impl Play<(), Share> for Agree {
    ghost use Rattle.number_tie.specs.Tied.{Raised};

    ghost then = { λ st m r m'. Raised 0 m m' };
}

/// A step of both shares together that raises their number by one.
pub struct Raise;

impl Play<(), Share> for Raise {
    ghost use Rattle.number_tie.specs.Tied.{Raised};

    ghost then = { λ st m r m'. Raised 1 m m' };
}
