// The votes together, and the quota.
ghost use Rattle.std.specs.Prelude.{◌≡◌, ◌+◌, ◌/◌, ◌≤◌, sum};
ghost use Rattle.plain_ballots.specs.declared.limits.TheConstants.{MOST_CANDIDATES};
ghost use Rattle.fixed_place.specs.Rounding.{most};

use fixed_place::{Amount, Amounts, div_down};

/// The votes together.
pub(crate) fn total_of<const P: usize>(votes: &Amounts<P>) -> Amount<P>
    requires few { sum votes.now ≤ most P }
    ensures { result ≡ sum votes.now }
{
    // Their places are 6 to 9.
    let _places = votes.len();
    let mut total = 0;
    for vote in votes.items() {
        total += vote.units();
    }
    Amount::from_units(total)
}

/// The votes together over one more than the seats, rounded down, and one unit more.
pub(crate) fn quota_of<const P: usize>(total: Amount<P>, seats: u32) -> Amount<P>
    requires { (1 ≤ seats) × (seats ≤ MOST_CANDIDATES) }
    ensures value { result ≡ total.entry / (seats + 1) + 1 }
{
    let _amount = total.units();
    Amount::from_units(div_down(total, seats + 1).units() + 1)
}
