// How many rounds and iterations a count took.

/// The round of a count's last iteration, 0 where there was none, and the number of its iterations.
#[derive(Clone, Copy)]
pub(crate) struct Turns {
    pub(crate) rounds: u32,
    pub(crate) iterations: u64,
}
