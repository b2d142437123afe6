//! What voters expect of a count, as laws over the definitions of the rule, and worked counts that show what
//! the rule does not promise. docs/LAWS.md says each law in plain words.
//!
//! Nothing here runs: each public function has a contract and no body, so a law can be cited, and bent by a
//! planted bug, like any other contract. What one sheet promises (crate count_promise) rests on these.
#![tactic(auto)]

mod figures;
mod laws;

pub use figures::laws_hold_in_figures;
pub use laws::{
    clone_independence_fails, coalitions_are_seated, first_preferences_count,
    house_monotonicity_fails, keep_values_rise_by_a_unit, later_lots_never_hurt,
    later_preferences_change_nothing_earlier, lots_break_ties_alone, majorities_win,
    monotonicity_fails, no_vote_vanishes, numbers_mean_nothing, one_seat_is_the_alternative_vote,
    participation_fails, plurality_fails, seats_are_filled, silent_ballots_change_nothing,
    strikes_change_nothing, unanimity_fails, unranked_are_not_elected, withdrawn_may_be_left_out,
};
