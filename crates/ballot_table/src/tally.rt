// What became of the rows of a table, in numbers.
ghost use Rattle.std.specs.Prelude.{◌≡◌, ◌+◌, if◌then◌else◌, IfOk};
ghost use Rattle.ballot_table.specs.Report.{is_nobody, no_rows, one_dropped, plus, IsTallied};

use crate::row::JudgedRow;
use plain_ballots::NoMemory;

/// What became of the rows of a table, in numbers: of rows, and of the ballots that they stand for.
#[derive(Clone, Copy, Debug, PartialEq, Eq)]
pub struct Tally {
    /// All rows after the head.
    pub rows: u64,
    /// Rows that stand for no ballot because all their fields are blank.
    pub dropped: u64,
    pub ballots: u64,
    /// Ballots that rank nobody.
    pub empty: u64,
    /// Ballots of which skipped ranks were closed.
    pub closed: u64,
    /// Ballots of which a mark was passed.
    pub passed: u64,
    /// Ballots that end before a mark that was cut.
    pub cut: u64,
}

impl Tally {
    /// No row yet.
    pub(crate) fn new() -> Tally
        ensures { result ≡ no_rows }
    {
        Tally {
            rows: 0,
            dropped: 0,
            ballots: 0,
            empty: 0,
            closed: 0,
            passed: 0,
            cut: 0,
        }
    }

    /// One more row, which is dropped.
    pub(crate) fn with_dropped(self) -> Result<Tally, NoMemory>
        ensures { IfOk result (λ more. more ≡ plus one_dropped self) }
    {
        Ok(Tally {
            rows: more(self.rows, true, 1)?,
            dropped: more(self.dropped, true, 1)?,
            ..self
        })
    }

    /// One more row, which isn't.
    #[inline(always)]
    pub(crate) fn with(self, row: &JudgedRow) -> Result<Tally, NoMemory>
        ensures { IfOk result (IsTallied row.now self) }
    {
        let treated = &row.treated;
        let count = row.count;
        Ok(Tally {
            rows: more(self.rows, true, 1)?,
            dropped: self.dropped,
            ballots: more(self.ballots, true, count)?,
            empty: more(self.empty, is_nobody(treated.ranking.ranks()), count)?,
            closed: more(self.closed, treated.closed, count)?,
            passed: more(self.passed, treated.passed, count)?,
            cut: more(self.cut, treated.cut, count)?,
        })
    }
}

fn is_nobody(ranking: &[u32]) -> bool
    ensures { result ≡ is_nobody ranking.now }
{
    ranking.is_empty()
}

/// A number with so many more, if they are counted. There is no room for more than 18,446,744,073,709,551,615.
#[inline(always)]
fn more(number: u64, counted: bool, count: u32) -> Result<u64, NoMemory>
    ensures { IfOk result (λ sum. sum ≡ number + (if counted then count else 0)) }
{
    if !counted {
        return Ok(number);
    }
    match number.checked_add(u64::from(count)) {
        Some(sum) => Ok(sum),
        None => Err(NoMemory),
    }
}
