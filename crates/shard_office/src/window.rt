// Where the callers of one shard wait for their turns.
use crate::shard_value::ShardValue;
use number_tie::Tie;
use turn_lock::TurnLock;

/// The window of a shard: the lock that its book lies behind, and the tie between the number of its
/// entries and that of its marks.
#[derive(Drop)]
pub struct Window {
    pub(crate) lock: TurnLock<ShardValue>,
    pub(crate) tie: Tie,
}
