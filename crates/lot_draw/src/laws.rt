// What holds of every draw.
ghost use Rattle.lot_draw.specs.Laws.{SeedsHaveOneDraw, DrawsAreOrders};

/// A seed draws one order of so many candidates, and it is an order of lots. The call does nothing.
pub fn draw_laws()
    ensures one { SeedsHaveOneDraw }
    ensures order { DrawsAreOrders }
{}
