// How wide a number of the table is.
ghost use Rattle.std.specs.Prelude.{◌≡◌, ◌≤◌, ◌∷◌, All, length, max};
ghost use Rattle.plain_ballots.specs.declared.limits.TheConstants.{MOST_BALLOTS};
ghost use Rattle.fixed_place.specs.Text.{text_of};
ghost use Rattle.sheet_reader.specs.Form.{IsPrintable, IsPrintableRow};
ghost use Rattle.sheet_minutes.specs.Rounds.{left_over};
ghost use Rattle.sheet_minutes.specs.Table.{widest, widest_of, width_of};

use crate::pieces::votes_text;
use crate::rounds::left_over;
use fixed_place::Amount;
use meek_rule::Row;
use sheet_reader::SheetValuesAt;

/// The columns of the widest quota, vote or amount left over.
pub(crate) fn width_of<const P: usize>(values: &SheetValuesAt<P>) -> usize
    requires places { (6 ≤ P) × (P ≤ 9) }
    requires printable { IsPrintable P values.now }
    ensures width { result ≡ width_of P values.now }
    ensures narrow { result ≤ 20 }
{
    widest_of(values.ballots, values.rows.items())
}

fn widest_of<const P: usize>(ballots: u64, rows: &[Row<P>]) -> usize
    requires few { ballots ≤ MOST_BALLOTS }
    ensures { result ≡ widest_of P ballots rows.now }
{
    let mut most = 0;
    for row in rows {
        most = larger(most, widest_in(ballots, row));
    }
    most
}

/// The columns of the widest amount of an iteration.
fn widest_in<const P: usize>(ballots: u64, row: &Row<P>) -> usize
    requires few { ballots ≤ MOST_BALLOTS }
    ensures { result ≡ widest P (row.now.quota ∷ left_over P ballots row.now ∷ row.now.votes) }
{
    let left = columns(left_over(ballots, row.total));
    larger(columns(row.quota), larger(left, widest(row.votes.items())))
}

fn widest<const P: usize>(amounts: &[Amount<P>]) -> usize
    ensures { result ≡ widest P amounts.now }
{
    let mut most = 0;
    for amount in amounts {
        most = larger(most, columns(*amount));
    }
    most
}

fn columns<const P: usize>(amount: Amount<P>) -> usize
    ensures { result ≡ length (text_of P amount.entry) }
{
    votes_text(amount).bytes().len()
}

fn larger(one: usize, other: usize) -> usize
    ensures { result ≡ max one other }
{
    if one < other { other } else { one }
}
