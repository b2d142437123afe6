// What became of the ballots of a text.
ghost use Rattle.std.specs.Prelude.{◌≡◌, ◌+◌, ◌≤◌, ◌==◌, if◌then◌else◌};
ghost use Rattle.plain_ballots.specs.declared.limits.TheConstants.{MOST_BALLOTS};
ghost use Rattle.preflib_text.specs.Counting.{no_orders, counting, IsWithinBallots};

use ballot_marks::Treated;

/// What became of the ballots of a text. But for `orders` these are numbers of ballots.
#[derive(Clone, Copy, Debug, PartialEq, Eq)]
pub struct Tally {
    /// Orders, each of which stands for at least one ballot.
    pub orders: u32,
    pub ballots: u32,
    /// Those that rank nobody.
    pub empty: u32,
    /// Those of orders of which an item was passed.
    pub passed: u32,
    /// Those of orders that end before an item.
    pub cut: u32,
}

impl Tally {
    pub(crate) fn new() -> Tally
        ensures { result ≡ no_orders }
    {
        Tally {
            orders: 0,
            ballots: 0,
            empty: 0,
            passed: 0,
            cut: 0,
        }
    }

    /// With an order of so many ballots.
    pub(crate) fn with(self, count: u32, treated: &Treated) -> Tally
        requires within { IsWithinBallots self }
        requires some { 1 ≤ count }
        requires room { self.ballots + count ≤ MOST_BALLOTS }
        ensures tally { result ≡ counting self count treated.now }
        ensures within { IsWithinBallots result }
    {
        Tally {
            orders: self.orders + 1,
            ballots: self.ballots + count,
            empty: self.empty + count_if(treated.ranking.ranks().is_empty(), count),
            passed: self.passed + count_if(treated.passed, count),
            cut: self.cut + count_if(treated.cut, count),
        }
    }
}

fn count_if(holds: bool, count: u32) -> u32
    ensures value { result ≡ (if holds then count else 0) }
    ensures within { result ≤ count }
{
    if holds { count } else { 0 }
}
