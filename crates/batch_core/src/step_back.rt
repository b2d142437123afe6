// A call that wasn't answered.
use crate::Call;

/// Want of memory, with the call handed back and the book unchanged.
#[derive(Debug, Drop)]
pub struct StepBack {
    pub call: Call,
}
