// What laws say in figures.
ghost use Rattle.rule_laws.specs.InFigures.{TwoOfThree, OneIsLeft, TwoSeatsAlike, NineOf26, FourteenOf27, FourBeforeThree};
ghost use Rattle.rule_laws.specs.InFigures.{SolidWithoutTheWithdrawn, SolidFourteenOf27, FourOfTen, FourOfTenHeard};
ghost use Rattle.rule_laws.specs.InFigures.{FiveOfTwelve, OrderlyFiveOfTwelve, QuietThreeOf49, ThreeOf14};
ghost use Rattle.rule_laws.specs.InFigures.{HalfAVoteLacks, RisesToSix};

use crate::laws::{
    coalitions_are_seated, first_preferences_count, keep_values_rise_by_a_unit, majorities_win,
    one_seat_is_the_alternative_vote, seats_are_filled, silent_ballots_change_nothing,
};

/// What laws say of elections in figures, at their limits: with a ballot, a unit or a seat otherwise most of them say
/// nothing. So a law that is made weaker doesn't give them any more. They rest on nothing but the laws' clauses.
pub fn laws_hold_in_figures()
    ensures two_of_three { TwoOfThree }
    ensures one_is_left { OneIsLeft }
    ensures two_seats { TwoSeatsAlike }
    ensures share { NineOf26 }
    ensures first { FourteenOf27 }
    ensures plurality { FourBeforeThree }
    ensures ballot { SolidWithoutTheWithdrawn }
    ensures solid { SolidFourteenOf27 }
    ensures quotas { FourOfTen }
    ensures heard { FourOfTenHeard }
    ensures shares { FiveOfTwelve }
    ensures orderly { OrderlyFiveOfTwelve }
    ensures hundredths { QuietThreeOf49 }
    ensures one { ThreeOf14 }
    ensures lack { HalfAVoteLacks }
    ensures keep { RisesToSix }
{
    seats_are_filled();
    one_seat_is_the_alternative_vote();
    majorities_win();
    first_preferences_count();
    coalitions_are_seated();
    silent_ballots_change_nothing();
    keep_values_rise_by_a_unit();
}
