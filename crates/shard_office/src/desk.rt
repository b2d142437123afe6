// Where a caller sits at an office.
use crate::office::Office;
use crate::register_value::RegisterValue;
use crate::shard_value::ShardValue;
use std::snapshot::Snapshot;
use turn_lock::Seat;

/// The desk of one caller: its number, and its seats, one at the lock of each shard and one at the
/// register's. Between two calls none of them holds a turn.
#[derive(Drop)]
pub struct Desk {
    pub(crate) office: Snapshot<Office>,
    pub(crate) caller: u32,
    pub(crate) shards: Vec<Seat<ShardValue>>,
    pub(crate) register: Seat<RegisterValue>,
}
