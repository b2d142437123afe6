// An answered call.
use crate::{Call, Reply};

/// A call of a caller, with its reply.
#[derive(Debug, Drop)]
pub struct Entry {
    pub caller: u32,
    pub call: Call,
    pub reply: Reply,
}
