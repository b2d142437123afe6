// The rankings that lines have said.
ghost use Rattle.std.specs.Prelude.{◌≡◌, List, ℕ, true, false, if◌then◌else◌, IfOk, OnOk};
ghost use Rattle.std.specs.Str.{bytes_eq};
ghost use Rattle.ballot_findings.specs.Said.{has};

use crate::no_memory::NoMemory;
use std::alloc::Global;
use std::collections::HashSet;
use std::hash::{BuildHasherDefault, FoldHasher};

/// The rankings that were said so far, each once.
#[derive(Drop)]
pub(crate) struct Said<'a> {
    rankings: HashSet<&'a [u32], BuildHasherDefault<FoldHasher>>,
}

impl<'a> Said<'a> {
    /// No ranking yet.
    pub(crate) fn new(alloc: Global) -> Said<'a>
        ensures { (ranking : List ℕ) → has result ranking ≡ false }
    {
        Said {
            rankings: HashSet::new(alloc),
        }
    }

    /// Says a ranking, and whether it was said before.
    pub(crate) fn say(&mut self, ranking: &'a [u32]) -> Result<bool, NoMemory>
        ensures again { IfOk result (λ again. again ≡ has self.old ranking.now) }
        ensures more { OnOk result ((other : List ℕ) →
            has self.new other ≡ if bytes_eq ranking.now other then true else has self.old other) }
    {
        let is_new = self.rankings.insert(ranking)?;
        Ok(!is_new)
    }
}
