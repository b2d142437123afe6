/// The board could not be entered, or can't be compared with what was told.
#[derive(Clone, Copy, Debug, PartialEq, Eq, Drop)]
pub struct NoReading;
