// How wide the bars of a picture are.
ghost use Rattle.std.specs.Prelude.{◌≡◌, max};
ghost use Rattle.sheet_page.specs.Picture.{full_of, greatest, scaled};

use fixed_place::Amount;
use meek_rule::Row;
use sheet_reader::SheetValuesAt;

const WIDTH: u128 = 400;

/// An amount scaled to the width, where the full amount has all of it, rounded down.
pub(crate) fn scaled<const P: usize>(full: u64, amount: Amount<P>) -> u64
    ensures { result ≡ scaled full amount.entry }
{
    if full == 0 {
        return 0;
    }
    let length = u128::from(amount.units()) * WIDTH / u128::from(full);
    length.min(WIDTH) as u64
}

/// The greatest quota or vote of a sheet, in units.
pub(crate) fn sheet_full<const P: usize>(values: &SheetValuesAt<P>) -> u64
    ensures { result ≡ full_of values.now.rows }
{
    full_of(values.rows.items())
}

#[tactic(auto, using(crate::proofs::Peaks::full_more, std::proofs::lemmas::List::take_all))]
fn full_of<const P: usize>(rows: &[Row<P>]) -> u64
    ensures { result ≡ full_of rows.now }
{
    let mut full = 0;
    for row in rows {
        full = larger(full, larger(row.quota.units(), greatest(row.votes.items())));
    }
    full
}

/// The greatest of some amounts, in units.
#[tactic(auto, using(crate::proofs::Peaks::greatest_more, std::proofs::lemmas::List::take_all))]
fn greatest<const P: usize>(amounts: &[Amount<P>]) -> u64
    ensures { result ≡ greatest amounts.now }
{
    let mut most = 0;
    for amount in amounts {
        most = larger(most, amount.units());
    }
    most
}

fn larger(one: u64, other: u64) -> u64
    ensures { result ≡ max one other }
{
    if one < other { other } else { one }
}
