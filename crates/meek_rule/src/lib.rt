//! The counting rule: [`Spread`], which distributes ballots among the candidates, [`FlatSpread`],
//! which walks them line by line, the [`Situation`] between two iterations, with the [`Stage`] that it has
//! come to, and the [`Row`] that is written down of each, with the [`Step`] that was taken.
#![tactic(auto)]

mod ending;
mod flat_spread;
mod keep_values;
mod laws;
mod no_memory;
mod quota;
mod row;
mod situation;
mod spread;
mod stage;
mod states;
mod step;
mod surplus;
mod ties;
mod winners;
mod worked;

pub use flat_spread::FlatSpread;
pub use laws::distribution_laws;
pub use no_memory::NoMemory;
pub use row::Row;
pub use situation::Situation;
pub use spread::Spread;
pub use stage::Stage;
pub use step::Step;
pub use worked::worked_iterations;
