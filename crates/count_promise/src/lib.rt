//! What the sheet of one count promises to everybody who has it: whether a lot decided anything, the
//! greatest surplus that was left at a defeat, what those who hold seats lack of their quotas, and
//! within how many votes the count is proportional.
//!
//! [`promise`] is the whole tool. What it says in lines is said in other words elsewhere: [`decides_any`],
//! [`chosen_among`] and [`is_in`] tell what lots decided, [`promised_quota`] and [`slack`] the quota and the votes of
//! the promise, and [`first_defeat`] the defeat for which there is none.
//! [`promises_hold`] says that what is promised is so in each count of which this is the sheet.
#![tactic(auto)]

mod group;
mod laws;
mod lines;
mod lots;
mod measures;
mod peaks;
mod quota;
mod text;
mod tool;
mod worked;

pub use group::Group;
pub use laws::{promise_holds_in_figures, promises_hold};
pub use lots::{chosen_among, decides_any, is_in};
pub use measures::{defeated, first_defeat};
pub use quota::{promised_quota, slack};
pub use tool::promise;
pub use worked::worked_promises;
