//! Warren's rule over plans: [`WarrenSpread`] distributes their ballots at prices, [`WarrenCount`] is a count
//! of it, and [`write_warren`] writes the sheet of one that was just begun.
//!
//! The tools `warren` and `check --rule warren` count with it. All but the distribution is as by Meek's rule:
//! the same iteration, count and sheet, over another `Spread`.
#![tactic(auto)]

mod no_memory;
mod pay;
mod warren_count;
mod warren_spread;

pub use no_memory::NoMemory;
pub use warren_count::{WarrenCount, write_warren};
pub use warren_spread::WarrenSpread;
