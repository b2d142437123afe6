// The rows of a share of branches, while candidates are of some classes.
ghost use Rattle.std.specs.Prelude.{◌≡◌, ℕ, ◌+◌, ◌-◌, ◌<◌, ◌≤◌, [], ◌∷◌, ◌++◌, All, false, true, if◌then◌else◌, length, slice_index, vec_len, vec_capacity};
ghost use Rattle.plain_ballots.specs.declared.limits.TheConstants.{MOST_CANDIDATES};
ghost use Rattle.vote_spread.specs.Stem.{stem_of, stems_of};
ghost use Rattle.vote_spread.specs.Walk.{IsWalk, HaveTails};
ghost use Rattle.vote_spread.specs.Rows.{seen, IsRow, Continues, Leaves, StandForPart, room_for};

use crate::branch::Branch;
use crate::class::Class;
use crate::depths::DEPTHS;
use crate::row::Row;

/// Makes the rows of branches `from` to `to` in place of those that stand there. First come the
/// branches on the way to `from`, with no ballots, so that the rows stand by themselves.
pub(crate) fn condense(
    branches: &[Branch],
    tails: &[u8],
    from: usize,
    to: usize,
    classes: &[Class],
    rows: &mut Vec<Row>,
)
    requires range { to ≤ length branches.now }
    requires tails { HaveTails (length tails.now) branches.now }
    requires walk { IsWalk (length classes.now) 1 (stems_of tails.now branches.now) }
    requires room { room_for (stems_of tails.now branches.now) from to ≤ vec_capacity rows.old }
    ensures capacity { vec_capacity rows.new ≡ vec_capacity rows.old }
    ensures stand { StandForPart classes.now (stems_of tails.now branches.now) from to (seen rows.new.items) }
{
    rows.clear();
    let mut reached = [0u8; DEPTHS];
    let mut i = 0;
    while i < to {
        let branch = branches[i];
        let skip = branch.skip as usize;
        if i + skip <= from {
            i += skip;
        } else {
            let counted = counted(branch, from <= i);
            let at = reached[branch.depth as usize - 1];
            match enter(counted, tail_of(counted, tails), at, classes, rows) {
                Some(below) => {
                    reached[branch.depth as usize] = below;
                    i += 1;
                }
                None => i += skip,
            }
        }
    }
}

/// A branch, or where it does not count the same with no ballots and no tail.
fn counted(branch: Branch, counts: bool) -> Branch
    ensures { result ≡ (if counts then branch else record branch { ballots = 0; length = 0 }) }
{
    if counts {
        branch
    } else {
        Branch {
            ballots: 0,
            length: 0,
            ..branch
        }
    }
}

/// The candidates after a branch.
fn tail_of(branch: Branch, tails: &[u8]) -> &[u8]
    requires { branch.tail + branch.length ≤ length tails.now }
    ensures { result.now ≡ (stem_of tails.now branch).tail }
{
    let at = branch.tail as usize;
    &tails[at..at + branch.length as usize]
}

/// Puts the rows of a branch and of its tail after the others, and gives the depth below which its
/// weight stands, if anything is left of it.
fn enter(branch: Branch, tail: &[u8], at: u8, classes: &[Class], rows: &mut Vec<Row>) -> Option<u8>
    requires candidate { (1 ≤ branch.candidate) × (branch.candidate ≤ length classes.now) }
    requires ranks { All (λ r. (1 ≤ r) × (r ≤ length classes.now)) tail.now }
    requires depth { at + 1 + length tail.now ≤ MOST_CANDIDATES }
    requires room { vec_len rows.old + 1 + length tail.now ≤ vec_capacity rows.old }
    ensures capacity { vec_capacity rows.new ≡ vec_capacity rows.old }
    ensures few { vec_len rows.new ≤ vec_len rows.old + 1 + length tail.now }
    ensures continues { Continues classes.now branch.ballots at (branch.candidate ∷ tail.now) (seen rows.old.items) (seen rows.new.items) }
    ensures leaves { Leaves classes.now at branch.candidate (seen rows.old.items) (seen rows.new.items) result }
{
    let below = put(branch.ballots, branch.candidate, at, classes, rows)?;
    follow(branch.ballots, tail, below, classes, rows);
    Some(below)
}

/// Puts the rows of a tail after the others, as far as anything is left.
fn follow(ballots: u32, tail: &[u8], at: u8, classes: &[Class], rows: &mut Vec<Row>)
    requires ranks { All (λ r. (1 ≤ r) × (r ≤ length classes.now)) tail.now }
    requires depth { at + length tail.now ≤ MOST_CANDIDATES }
    requires room { vec_len rows.old + length tail.now ≤ vec_capacity rows.old }
    ensures capacity { vec_capacity rows.new ≡ vec_capacity rows.old }
    ensures few { vec_len rows.new ≤ vec_len rows.old + length tail.now }
    ensures continues { Continues classes.now ballots at tail.now (seen rows.old.items) (seen rows.new.items) }
{
    let mut depth = at;
    for rank in tail {
        match put(ballots, *rank, depth, classes, rows) {
            Some(below) => depth = below,
            None => return,
        }
    }
}

/// Puts the row of a candidate after the others, where it keeps anything of what is after
/// depth `at`. Gives the depth after which the rest stands, if there is any.
fn put(ballots: u32, candidate: u8, at: u8, classes: &[Class], rows: &mut Vec<Row>) -> Option<u8>
    requires candidate { (1 ≤ candidate) × (candidate ≤ length classes.now) }
    requires depth { at < MOST_CANDIDATES }
    requires room { vec_len rows.old < vec_capacity rows.old }
    ensures capacity { vec_capacity rows.new ≡ vec_capacity rows.old }
    ensures few { vec_len rows.new ≤ vec_len rows.old + 1 }
    ensures continues { Continues classes.now ballots at (candidate ∷ []) (seen rows.old.items) (seen rows.new.items) }
    ensures leaves { Leaves classes.now at candidate (seen rows.old.items) (seen rows.new.items) result }
{
    let row = Row {
        ballots,
        candidate,
        depth: at + 1,
    };
    let class = classes[candidate as usize - 1];
    let stands = class.keeps_some();
    push_where(stands, row, rows);
    if class.leaves_some() {
        Some(at + stands as u8)
    } else {
        None
    }
}

/// Puts a row after the others if it is to stand there. It is written in either case, and left out
/// again, so that no jump depends on which it is: none of the two is foretold well.
fn push_where(stands: bool, row: Row, rows: &mut Vec<Row>)
    requires room { vec_len rows.old < vec_capacity rows.old }
    ensures capacity { vec_capacity rows.new ≡ vec_capacity rows.old }
    ensures few { vec_len rows.new ≤ vec_len rows.old + 1 }
    ensures pushed { stands ≡ true → rows.new.items ≡ rows.old.items ++ row ∷ [] }
    ensures left_out { stands ≡ false → rows.new.items ≡ rows.old.items }
{
    let len = rows.len();
    rows.push_reserved(row);
    rows.truncate(len + stands as usize);
}
