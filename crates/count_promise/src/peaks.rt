// The greatest of what iterations leave over.
ghost use Rattle.std.specs.Prelude.{◌≡◌, ◌^◌, ◌≤◌, length, max, All};
ghost use Rattle.plain_ballots.specs.declared.limits.TheConstants.{MOST_CANDIDATES};
ghost use Rattle.sheet_reader.specs.Form.{IsPrintableRow};
ghost use Rattle.meek_rule.specs.Row.{HasRoomFor};
ghost use Rattle.count_promise.specs.Left.{greatest_lack, greatest_surplus, lack_at, left_at_most, slack, surplus_at};

use crate::measures::{lack_at, surplus_at};
use meek_rule::Row;

/// The greatest of what iterations leave over, in units.
#[derive(Clone, Copy, Drop)]
pub(crate) struct Peaks {
    /// Of the surpluses at defeats.
    pub(crate) surplus: u64,
    /// Of what those who hold seats lack together, where somebody is elected or defeated.
    pub(crate) lack: u128,
    /// Of what is left over: that lack, and at a defeat the surplus besides.
    pub(crate) left: u128,
}

/// The greatest of all iterations.
pub(crate) fn peaks_of<const P: usize>(rows: &[Row<P>], candidates: usize) -> Peaks
    requires few { candidates ≤ MOST_CANDIDATES }
    requires rows { All (IsPrintableRow P candidates) rows.now }
    ensures surplus { result.surplus ≡ greatest_surplus rows.now }
    ensures lack { result.lack ≡ greatest_lack rows.now }
    ensures left { result.left ≡ slack rows.now }
    ensures few_lack { result.lack ≤ 10 ^ 22 }
    ensures few_left { result.left ≤ 10 ^ 23 }
{
    let mut peaks = Peaks {
        surplus: 0,
        lack: 0,
        left: 0,
    };
    for row in rows {
        peaks = peaks.with(row);
    }
    peaks
}

impl Peaks {
    /// The greatest with one iteration more.
    fn with<const P: usize>(&self, row: &Row<P>) -> Peaks
        requires room { HasRoomFor (length row.now.states) row.now }
        requires few { length row.now.states ≤ MOST_CANDIDATES }
        requires few_lack { self.now.lack ≤ 10 ^ 22 }
        requires few_left { self.now.left ≤ 10 ^ 23 }
        ensures surplus { result.surplus ≡ max self.now.surplus (surplus_at row.now.step row.now) }
        ensures lack { result.lack ≡ max self.now.lack (lack_at row.now.step row.now) }
        ensures left { result.left ≡ max self.now.left (left_at_most row.now) }
        ensures few_lack { result.lack ≤ 10 ^ 22 }
        ensures few_left { result.left ≤ 10 ^ 23 }
    {
        let surplus = surplus_at(row);
        let lack = lack_at(row);
        Peaks {
            surplus: self.surplus.max(surplus),
            lack: self.lack.max(lack),
            left: self.left.max(surplus as u128 + lack),
        }
    }
}
