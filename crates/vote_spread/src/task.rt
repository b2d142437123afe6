// What lanes have to count.
use crate::branches::Branches;
use crate::keeping::Keeping;

/// Branches that lanes share, and the keep values at which they distribute their ballots.
#[derive(Drop)]
pub(crate) struct Task {
    pub(crate) branches: Branches,
    pub(crate) keeping: Keeping,
}
