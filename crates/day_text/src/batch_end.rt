/// A batch that was entered: its number, its last revision, and whether it stands or is gone.
#[derive(Clone, Copy, Debug, PartialEq, Eq, Drop)]
pub struct BatchEnd {
    pub number: u32,
    pub revision: u32,
    pub stands: bool,
}
