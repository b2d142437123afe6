//! Ballot lines read by several workers: [`Pieces`] is the way of reading in which each worker reads a
//! piece of the file, from a place where a line seems to begin. A piece counts only where those before it
//! ended exactly where it begins, and from the last one that counts the one reader goes on. So what is
//! read, a refusal and its place are those of reading one line after another.
#![tactic(auto)]

mod at_count;
mod found;
mod piece;
mod pieces;

pub use pieces::Pieces;
