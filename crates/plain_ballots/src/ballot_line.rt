// Equal ballots.
ghost use Rattle.std.specs.Prelude.{◌≡◌, IfOk};

use crate::{NoMemory, Ranking};
use std::alloc::Global;

/// As many equal ballots as `count` says, which is at least 1.
#[derive(Debug, Drop)]
pub struct BallotLine {
    pub count: u32,
    pub ranking: Ranking,
}

impl BallotLine {
    pub fn copy(&self, alloc: Global) -> Result<BallotLine, NoMemory>
        ensures { IfOk result (λ line. line ≡ self.now) }
    {
        Ok(BallotLine {
            count: self.count,
            ranking: self.ranking.copy(alloc)?,
        })
    }
}
