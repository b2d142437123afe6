// The sequence of numbers from which ballots are drawn.
ghost use Rattle.std.specs.Prelude.{◌≡◌, ◌+◌, ◌<◌, ◌≤◌};
ghost use Rattle.meek_trial.specs.Draws.{drawn};

use std::marker::Model;

/// The sequence of numbers of a day, drawn from one after another.
#[derive(Drop)]
pub(crate) struct Draws {
    number: u64,
    taken: u64,
    last: u64,
}

impl Model for Draws {
    ghost use Rattle.std.specs.Prelude.{◌≡◌, ◌<◌};
    ghost use Rattle.meek_trial.specs.Draws.{Drawing, drawn};

    ghost Value = { Drawing };

    ghost view = { λ d. record { number = d.number; taken = d.taken } };

    ghost invariant = { λ d. (d.last ≡ drawn d.number d.taken) × (d.last < 2147483648) };
}

impl Draws {
    /// The sequence of the day of this number, before its first draw.
    pub(crate) fn new(number: u64) -> Draws
        requires { number < 2147483648 }
        ensures { result ≡ record { number = number; taken = 0 } }
    {
        Draws {
            number,
            taken: 0,
            last: number,
        }
    }

    /// The next number of the sequence.
    pub(crate) fn draw(&mut self) -> u64
        requires { self.old.taken < 1000000 }
        ensures value { result ≡ drawn self.old.number (self.old.taken + 1) }
        ensures taken { self.new ≡ record self.old { taken = self.old.taken + 1 } }
    {
        let drawn = (self.last * 1_103_515_245 + 12_345) % 2_147_483_648;
        self.last = drawn;
        self.taken += 1;
        drawn
    }
}
