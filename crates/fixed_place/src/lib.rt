//! The arithmetic of a count: amounts of votes and keep values as whole numbers of units, at `P`
//! decimal places, and their roundings. An [`Amount`] is so many votes, a [`Keep`] the share of a
//! vote that a candidate keeps; [`Amounts`] and [`Keeps`] have one for each candidate, an
//! [`Omega`] is the least surplus that is transferred, and a [`RoundCase`] is a rounding worked by hand.
#![tactic(auto)]

mod amount;
mod amounts;
mod keep;
mod keeps;
mod no_memory;
mod omega;
mod part;
mod round_case;
mod rounding;
mod scale;
mod worked;

pub use amount::Amount;
pub use amounts::Amounts;
pub use keep::Keep;
pub use keeps::Keeps;
pub use no_memory::NoMemory;
pub use omega::{MOST_OMEGA, Omega, USUAL_OMEGA};
pub use part::keep_part;
pub use round_case::{RoundCase, check_cases};
pub use rounding::{div_down, div_up_capped, mul_up, rounding_law, sum_checked};
pub use scale::scale_of;
pub use worked::worked_amounts;
