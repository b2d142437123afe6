use batch_core::Calls;

/// A team's number, from 1 to 16, and its calls in their order.
#[derive(Debug, Drop)]
pub struct Script {
    pub team: u32,
    pub calls: Calls,
}
