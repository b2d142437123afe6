// The ends of rounds.
ghost use Rattle.std.specs.Prelude.{◌≡◌, ◌-◌, ◌*◌, ◌<◌, ◌≤◌, length};
ghost use Rattle.plain_ballots.specs.declared.limits.TheConstants.{MOST_BALLOTS};
ghost use Rattle.fixed_place.specs.Rounding.{scale};
ghost use Rattle.sheet_reader.specs.Form.{IsPrintable};
ghost use Rattle.sheet_minutes.specs.Rounds.{ends_round, states_behind};

use candidate_roll::States;
use fixed_place::{Amount, scale_of};
use meek_rule::Row;
use sheet_reader::SheetValuesAt;

/// What of so many ballots is left on no candidate, in votes: nothing, where the total is more.
pub fn left_over<const P: usize>(ballots: u64, total: Amount<P>) -> Amount<P>
    requires { ballots ≤ MOST_BALLOTS }
    ensures { result ≡ ballots * scale P - total.entry }
{
    let units = total.units();
    Amount::from_units((ballots * scale_of::<P>()).saturating_sub(units))
}

/// Whether the iteration at a place is the last of its round.
pub fn ends_round<const P: usize>(rows: &[Row<P>], i: usize) -> bool
    requires { i < length rows.now }
    ensures { result ≡ ends_round rows.now i }
{
    if i + 1 == rows.len() {
        return true;
    }
    let row = &rows[i];
    let next = &rows[i + 1];
    row.round != next.round
}

/// What the candidates are after the iteration at a place: as before the next one, or as in the end.
pub fn states_behind<const P: usize>(values: &SheetValuesAt<P>, i: usize) -> &States
    requires printable { IsPrintable P values.now }
    requires place { i < length values.now.rows }
    ensures states { result.now ≡ states_behind values.now i }
    ensures all { length result.now ≡ length values.now.names }
{
    let count = values.rows.len();
    if count == i + 1 {
        return &values.last;
    }
    let next = values.rows.get(i + 1);
    &next.states
}
