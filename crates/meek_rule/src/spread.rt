// What distributes ballots.
ghost use Rattle.std.specs.Prelude.{◌≡◌, ℕ, List, length};
ghost use Rattle.fixed_place.specs.Rounding.{scale};
ghost use Rattle.meek_rule.specs.Rule.{Rule};
ghost use Rattle.meek_rule.specs.Weights.{votes_under};

use fixed_place::{Amounts, Keeps};

/// What can distribute its ballots among the candidates.
pub trait Spread<const P: usize> {
    /// The rule by which a ballot gives its weight to the candidates.
    ghost rule: { Rule };

    /// The single ballots, each with its candidates in order of rank.
    ghost ballots: { Self → List (List ℕ) };

    /// How many candidates there are.
    ghost candidates: { Self → ℕ };

    /// What a distribution needs, and keeps.
    ghost can_spread: { Self → Type 0 };

    fn candidates(&self) -> u32
        requires { can_spread self.now }
        ensures { result ≡ candidates self.now };

    /// The number of all ballots, empty ones included.
    fn ballots(&self) -> u64
        requires { can_spread self.now }
        ensures { result ≡ length (ballots self.now) };

    /// Gives each candidate what the ballots give to it at these keep values, or at these prices.
    fn spread(&mut self, keeps: &Keeps<P>, tally: &mut Amounts<P>)
        requires can { can_spread self.old }
        requires keeps_of_all { length keeps.now ≡ candidates self.old }
        requires votes_of_all { length tally.old ≡ candidates self.old }
        ensures votes { tally.new ≡ votes_under rule (scale P) keeps.now (ballots self.old) (candidates self.old) }
        ensures still_can { can_spread self.new }
        ensures same { ballots self.new ≡ ballots self.old }
        ensures same_candidates { candidates self.new ≡ candidates self.old };
}
