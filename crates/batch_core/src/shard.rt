// Batches dealt out among shards.
ghost use Rattle.std.specs.Prelude.{◌≡◌, ◌≤◌};
ghost use Rattle.batch_core.specs.Shards.{shard_of};

/// The shard of a batch, among shards that are numbered from 1.
pub fn shard_of(batch: u32, shards: u32) -> u32
    requires batch { 1 ≤ batch }
    requires shards { 1 ≤ shards }
    ensures shard { result ≡ shard_of batch shards }
    ensures bounds { (1 ≤ result) × (result ≤ shards) }
{
    (batch - 1) % shards + 1
}
