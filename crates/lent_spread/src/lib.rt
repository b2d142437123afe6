//! Distributions that are lent.
//!
//! A [`Lent`] borrows a distribution by Meek's rule, and does in its name what a count asks of it.
#![tactic(auto)]

mod lent;

pub use lent::Lent;
