// Who counts.
use std::alloc::Global;

/// Who counts: the runtime whose threads the lanes run in and the memory that they take, the gate that
/// each lane passes before its work, among how many shards ballots are dealt out, and how many workers
/// count them, from 1 to 32.
#[derive(Drop)]
pub struct Crew<'a, R, G> {
    pub rt: &'a R,
    pub alloc: Global,
    pub gate: &'a G,
    pub shards: u32,
    pub workers: u32,
}
