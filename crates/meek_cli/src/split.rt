// How the ballots of a count are shared.
ghost use Rattle.std.specs.Prelude.{◌≡◌, ◌≤◌};
ghost use Rattle.vote_spread.specs.declared.limits.TheConstants.{MOST_WORKERS};
ghost use Rattle.shard_office.specs.declared.limits.TheConstants.{MOST_SHARDS};

use std::marker::Model;

/// Among how many shards ballots are kept, from 1 to 64, and among how many workers they are counted,
/// from 1 to 32.
#[derive(Drop)]
pub(crate) struct Split {
    shards: u32,
    workers: u32,
}

impl Model for Split {
    ghost use Rattle.std.specs.Prelude.{◌≤◌};
    ghost use Rattle.vote_spread.specs.declared.limits.TheConstants.{MOST_WORKERS};
    ghost use Rattle.shard_office.specs.declared.limits.TheConstants.{MOST_SHARDS};
    ghost use Rattle.meek_cli.specs.Sharing.{Sharing};

    ghost Value = { Sharing };

    ghost view = { λ s. record { shards = s.shards; workers = s.workers } };

    ghost invariant = { λ s. (1 ≤ s.shards) × (s.shards ≤ MOST_SHARDS) × (1 ≤ s.workers) × (s.workers ≤ MOST_WORKERS) };
}

impl Split {
    pub(crate) fn new(shards: u32, workers: u32) -> Split
        requires shards { (1 ≤ shards) × (shards ≤ MOST_SHARDS) }
        requires workers { (1 ≤ workers) × (workers ≤ MOST_WORKERS) }
        ensures { result ≡ record { shards = shards; workers = workers } }
    {
        Split { shards, workers }
    }

    pub(crate) fn shards(&self) -> u32
        ensures value { result ≡ self.now.shards }
        ensures bounds { (1 ≤ result) × (result ≤ MOST_SHARDS) }
    {
        self.shards
    }

    pub(crate) fn workers(&self) -> u32
        ensures value { result ≡ self.now.workers }
        ensures bounds { (1 ≤ result) × (result ≤ MOST_WORKERS) }
    {
        self.workers
    }
}
