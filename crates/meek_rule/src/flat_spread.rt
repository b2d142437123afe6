// Ballots that are distributed line by line.
ghost use Rattle.std.specs.Prelude.{◌≡◌, ◌+◌, ◌*◌, ◌<◌, ◌≤◌, ℕ, All, length, slice_index};
ghost use Rattle.fixed_place.specs.Rounding.{scale, most};
ghost use Rattle.plain_ballots.specs.Ballots.{BallotList, IsSound, plain};
ghost use Rattle.meek_rule.specs.Rule.{Meek};
ghost use Rattle.meek_rule.specs.Weights.{given, votes};

use crate::Spread;
use fixed_place::{Amount, Amounts, Keep, Keeps, keep_part, scale_of};
use plain_ballots::{BallotLine, Ballots};
use std::marker::Model;

/// Walks the lines of a list of ballots one after another, by Meek's rule.
#[derive(Debug, Drop)]
pub struct FlatSpread {
    ballots: Ballots,
}

impl Model for FlatSpread {
    ghost use Rattle.plain_ballots.specs.Ballots.{BallotList};

    ghost Value = { BallotList };

    ghost view = { λ s. s.ballots };
}

impl FlatSpread {
    pub fn new(ballots: Ballots) -> FlatSpread
        ensures { result ≡ ballots }
    {
        FlatSpread { ballots }
    }
}

impl<const P: usize> Spread<P> for FlatSpread {
    ghost rule = { Meek };

    ghost ballots = { λ s. plain s.lines };

    ghost candidates = { λ s. s.candidates };

    ghost can_spread = { λ _. Unit {0} };

    fn candidates(&self) -> u32 {
        self.ballots.candidates()
    }

    fn ballots(&self) -> u64 {
        self.ballots.total()
    }

    fn spread(&mut self, keeps: &Keeps<P>, tally: &mut Amounts<P>) {
        spread_lines(self.ballots.lines(), keeps, tally);
    }
}

/// Gives each candidate what all lines together give to it.
fn spread_lines<const P: usize>(lines: &[BallotLine], keeps: &Keeps<P>, tally: &mut Amounts<P>)
    requires sound { IsSound (length tally.old) lines.now }
    requires keeps_of_all { length keeps.now ≡ length tally.old }
    ensures { tally.new ≡ votes (scale P) keeps.now (plain lines.now) (length tally.old) }
{
    // Each keep value is at most that of one whole vote.
    let _bound = keeps.len();
    for i in 0..tally.len() {
        tally.set(i, Amount::from_units(0));
    }
    for line in lines {
        give_line(line.count, line.ranking.ranks(), keeps.items(), tally);
    }
}

/// Gives each candidate what a line of equal ballots gives to it.
fn give_line<const P: usize>(count: u32, ranks: &[u32], keeps: &[Keep<P>], tally: &mut Amounts<P>)
    requires places { (6 ≤ P) × (P ≤ 9) }
    requires numbers { All (λ r. (1 ≤ r) × (r ≤ length tally.old)) ranks.now }
    requires keeps_of_all { length keeps.now ≡ length tally.old }
    requires at_most_one { All (λ k. k ≤ scale P) keeps.now }
    requires room { (p : ℕ) → p < length tally.old → slice_index tally.old p + count * scale P ≤ most P }
    ensures same_length { length tally.new ≡ length tally.old }
    ensures given { (p : ℕ) → p < length tally.old → slice_index tally.new p ≡ slice_index tally.old p + count * given (scale P) keeps.now (scale P) ranks.now (p + 1) }
{
    let mut weight = scale_of::<P>();
    for rank in ranks {
        let place = (*rank - 1) as usize;
        let kept = keep_part(weight, keeps[place]);
        let vote = tally.get(place).units() + count as u64 * kept;
        tally.set(place, Amount::from_units(vote));
        weight -= kept;
        if weight == 0 {
            return;
        }
    }
}
