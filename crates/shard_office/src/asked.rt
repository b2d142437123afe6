// A change before it is answered.
use batch_core::Change;

/// A change that a caller asks for, with the shard of its batch.
#[derive(Drop)]
pub struct Asked {
    pub caller: u32,
    pub shard: u32,
    pub change: Change,
}
