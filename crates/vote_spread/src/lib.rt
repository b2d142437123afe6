//! Workers' lanes that distribute ballots by Meek's rule: the hottest code of a count.
//!
//! [`Lanes`] merge the plans of an election into one list of branches and deal it out in equal shares. At
//! each iteration a lane walks its share and adds up, for each candidate, what votes come to it; the sums
//! over all lanes are the votes. [`PlanSpread`] is this as the `Spread` that a count asks for.
//!
//! The one idea: from one iteration to the next mostly keep values change, and not who keeps all, a part or
//! nothing. So a lane keeps its share condensed to those who keep something, and makes it anew where that
//! changes. The contract knows nothing of it: the votes are sums over the single ballots.
#![tactic(auto)]

mod admission;
mod alike;
mod branch;
mod branches;
mod class;
mod condense;
mod depths;
mod factor;
mod gather;
mod keeping;
mod lane;
mod lanes;
mod leaving;
mod limits;
mod merge;
mod no_memory;
mod pack;
mod part;
mod plan_spread;
mod row;
mod run;
mod task;
mod walk;

pub use lanes::Lanes;
pub use limits::MOST_WORKERS;
pub use no_memory::NoMemory;
pub use plan_spread::PlanSpread;
