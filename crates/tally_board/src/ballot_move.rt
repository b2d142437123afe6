/// So many ballots with this candidate first come, or go.
#[derive(Clone, Copy, Debug, PartialEq, Eq, Drop)]
pub struct Move {
    pub candidate: u32,
    pub ballots: u32,
    pub comes: bool,
}
