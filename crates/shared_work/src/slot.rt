// A piece of work and what comes of it.
ghost use Rattle.std.specs.Prelude.{IfSome};

/// A piece of work until a worker takes it, and then what came of it.
#[derive(Drop)]
pub(crate) struct Slot<W, X> {
    pub(crate) work: Option<W>,
    pub(crate) done: Option<X>,
}

impl<W: Drop, X: Drop> Slot<W, X> {
    /// Takes the piece and does it.
    pub(crate) fn serve<F: Fn(W) -> Option<X>>(&mut self, each: &F)
        requires { IfSome self.old.work (λ piece. F.pre each.now piece) }
        ensures { IfSome self.old.work (λ piece. F.post each.now piece self.new.done) }
    {
        if let Some(piece) = self.work.take() {
            self.done = each(piece);
        }
    }
}
