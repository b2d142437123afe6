// The first key of a board, as proofs read it. At run time nothing is there.
use logbook::Pen;
use std::snapshot::Snapshot;

/// Stands for the key of a pen, and can be copied.
#[derive(Drop)]
pub enum Mark {
    Of(Snapshot<Pen>),
    Same(Snapshot<Mark>),
}

impl Mark {
    ghost use Rattle.std.specs.Prelude.{◌≡◌};
    ghost use Rattle.tally_board.specs.Marks.{key_of};

    /// The key of this pen.
    pub fn of(pen: &Pen) -> Mark
        ensures { key_of result ≡ pen.now.nib.key }
    {
        Mark::Of(Snapshot::of(pen))
    }

    /// A copy.
    pub fn again(&self) -> Mark
        ensures { key_of result ≡ key_of self.now }
    {
        Mark::Same(Snapshot::of(self))
    }
}
