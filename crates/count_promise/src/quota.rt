// The quota of a promise, and within how many votes it holds.
ghost use Rattle.std.specs.Prelude.{◌≡◌, ◌^◌, ◌<◌, ◌≤◌};
ghost use Rattle.plain_ballots.specs.declared.limits.TheConstants.{MOST_BALLOTS};
ghost use Rattle.fixed_place.specs.Rounding.{scale};
ghost use Rattle.sheet_reader.specs.Form.{IsPrintable};
ghost use Rattle.count_promise.specs.Left.{slack};
ghost use Rattle.count_promise.specs.Quota.{quota_at, quota_of, votes_heard};

use crate::peaks::peaks_of;
use fixed_place::scale_of;
use meek_rule::Row;
use sheet_reader::SheetValuesAt;

/// The quota of the ballots that rank somebody who runs, in units.
pub fn promised_quota<const P: usize>(values: &SheetValuesAt<P>) -> u128
    requires places { P ≤ 9 }
    requires printable { IsPrintable P values.now }
    ensures value { result ≡ quota_at P values.now }
    ensures bound { result < 10 ^ 24 }
{
    quota_of(
        values.seats,
        votes_heard(values.rows.items(), values.ballots),
    )
}

/// The votes, in units, that quotas may miss for what the iterations leave over.
pub fn slack<const P: usize>(values: &SheetValuesAt<P>) -> u128
    requires printable { IsPrintable P values.now }
    ensures value { result ≡ slack values.now.rows }
    ensures bound { result < 10 ^ 24 }
{
    peaks_of(values.rows.items(), values.names.len()).left
}

/// The votes of the first iteration together, in units, or those of all ballots where there is none.
fn votes_heard<const P: usize>(rows: &[Row<P>], ballots: u64) -> u128
    requires places { P ≤ 9 }
    requires few { ballots ≤ MOST_BALLOTS }
    ensures value { result ≡ votes_heard (scale P) ballots rows.now }
    ensures bound { result < 10 ^ 23 }
{
    match rows.first() {
        Some(row) => row.total.units() as u128,
        None => ballots as u128 * scale_of::<P>() as u128,
    }
}

/// The quota of so many units of votes.
fn quota_of(seats: u32, votes: u128) -> u128
    requires { votes < 10 ^ 23 }
    ensures value { result ≡ quota_of seats votes }
    ensures bound { result < 10 ^ 24 }
{
    votes / (seats as u128 + 1) + 1
}
