// A change for which memory ran out.
use batch_core::Change;

/// Want of memory for a change, which comes back as it was and may be asked again.
#[derive(Debug, Drop)]
pub struct CallBack {
    pub change: Change,
}
