//! Plans: ballots as an array of the beginnings of their rankings, in preorder. Each [`PlanRow`] of a
//! [`Plan`] is one beginning, with the number of ballots that end there; [`Plans`] is a list of plans, one
//! for each shard.
//!
//! A count makes its plans of sorted ballot lines ([`Plans::of_packed`]), and an office at a freeze those of
//! its tries ([`Plan::from_trie`]). The one idea: a beginning that many ballots share is there once, so what
//! they give to its candidates is worked out once. `specs/Plan` says which bag of ballots a plan is.
#![tactic(auto)]

mod chain;
mod deal;
mod dealing;
mod dealing_by_workers;
mod groups;
mod laws;
mod merge;
mod no_memory;
mod plan;
mod plan_row;
mod plans;
mod push_back;
mod rows;

pub use laws::one_bag_has_one_plan;
pub use no_memory::NoMemory;
pub use plan::Plan;
pub use plan_row::PlanRow;
pub use plans::Plans;
pub use push_back::PushBack;
