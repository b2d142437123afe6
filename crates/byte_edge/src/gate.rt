// A gate between two steps of the shared work, by which a test can hold a thread up.

use crate::Place;

/// A gate has no meaning: it is told a place and returns. It can't wait, so a gate that looks at a flag
/// gives up after some looks.
pub trait Gate {
    fn pass(&self, place: Place);
}

/// The gate that lets everybody pass at once.
#[derive(Clone, Copy, Debug, PartialEq, Eq)]
pub struct FreeGate;

impl Gate for FreeGate {
    fn pass(&self, _: Place) {}
}
