// A distribution that is lent to a count.
ghost use Rattle.std.specs.Prelude.{◌≡◌};
ghost use Rattle.meek_rule.specs.Rule.{Meek};

use fixed_place::{Amounts, Keeps};
use meek_rule::Spread;

/// Distributes by Meek's rule, by what it borrows, so that a count need not know what that is made of.
#[derive(Drop)]
pub struct Lent<'a, D> {
    pub spread: &'a mut D,
}

impl<'a, const P: usize, D: Spread<P>> Spread<P> for Lent<'a, D> {
    ghost rule = { Meek };

    ghost ballots = { λ l. D.ballots l.spread.now };

    ghost candidates = { λ l. D.candidates l.spread.now };

    ghost can_spread = { λ l. (D.rule ≡ Meek) × D.can_spread l.spread.now };

    fn candidates(&self) -> u32 {
        self.spread.candidates()
    }

    fn ballots(&self) -> u64 {
        self.spread.ballots()
    }

    fn spread(&mut self, keeps: &Keeps<P>, tally: &mut Amounts<P>) {
        self.spread.spread(keeps, tally);
    }
}
