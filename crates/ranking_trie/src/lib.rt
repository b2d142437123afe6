//! A bag of ballots as a trie of their rankings: a [`Trie`] has a node for each beginning of a
//! ranking, and says at each node how many ballots end there. Ballots are put in and taken out
//! without a refusal, rank by rank, with room that was taken before.
#![tactic(auto)]

mod add;
mod arena;
mod count;
mod fronts;
mod laws;
mod lines;
mod no_memory;
mod node;
mod places;
mod ranks;
mod remove;
mod siblings;
mod trie;

pub use laws::one_bag_has_one_form;
pub use no_memory::NoMemory;
pub use ranks::ranks_of;
pub use siblings::{Sibling, Siblings};
pub use trie::Trie;
