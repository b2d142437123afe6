// What holds of every order of lots.
ghost use Rattle.lot_order.specs.Laws.{HasOneRefusal, FirstMarkedComesFirst};

/// An order of lots is refused for one reason at most, and the first of the marked candidates stands
/// before each other one. The call does nothing.
pub fn lots_laws()
    ensures refusal { HasOneRefusal }
    ensures first { FirstMarkedComesFirst }
{}
