//! The book of one shard: a [`ShardBook`] answers the changes of its batches as a plain book does,
//! keeps them as entries, and has the ballots that stand after them in a trie. Once room was made, a
//! change can't fail, and costs what its lines cost, however many ballots stand.
#![tactic(auto)]

mod book;
mod index;
mod no_memory;
mod row;
mod turnover;

pub use book::ShardBook;
pub use no_memory::NoMemory;
