// A closed office for whose history memory ran out.
use crate::closing::Closing;

/// Want of memory for the history of a closed office, with all that it is to be made of. The office
/// and its clerk are spent; [`Closing::finish`] tries again.
#[derive(Drop)]
pub struct CloseBack {
    pub rest: Closing,
}
