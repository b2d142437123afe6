// A text compared with the sheet of an election.
ghost use Rattle.std.specs.Prelude.{◌≡◌, ◌≤◌, IfOk, length};
ghost use Rattle.plain_ballots.specs.Ballots.{plain};
ghost use Rattle.sheet_check.specs.Judged.{Compares, IsVerdict};
ghost use Rattle.sheet_check.specs.Terms.{places_of};

use crate::comparing::Comparing;
use crate::counting::write_sheet_by;
use crate::forms::has_some_form;
use crate::{NoMemory, Terms, Verdict};
use blt_reader::Election;
use check_words::Places;
use std::alloc::Global;
use std::thread::Threads;

/// The verdict on a text that is held to be the sheet of an election by these terms, whose lots are of its
/// candidates. The count is run again by one worker; what it writes is compared with the text as it comes,
/// and kept nowhere. The ballots are let go before the count begins.
pub fn judge<R: Threads + Sync>(
    rt: &R,
    alloc: Global,
    bytes: &[u8],
    election: Election,
    terms: &Terms,
) -> Result<Verdict, NoMemory>
    requires lots_of_all { length terms.now.lots ≡ length election.roll.names }
    requires ballots_of_all { election.ballots.candidates ≡ length election.roll.names }
    ensures { IfOk result (IsVerdict terms.now (plain election.ballots.lines) election.roll bytes.now) }
{
    if !has_some_form(alloc, bytes)? {
        return Ok(Verdict::Malformed);
    }
    match difference_at(rt, alloc, bytes, election, terms)? {
        Some(line) => Ok(Verdict::False(line)),
        None => Ok(Verdict::True),
    }
}

/// The first line in which a text differs from the sheet of an election by these terms.
fn difference_at<R: Threads + Sync>(
    rt: &R,
    alloc: Global,
    bytes: &[u8],
    election: Election,
    terms: &Terms,
) -> Result<Option<u64>, NoMemory>
    requires lots_of_all { length terms.now.lots ≡ length election.roll.names }
    requires ballots_of_all { election.ballots.candidates ≡ length election.roll.names }
    ensures { IfOk result (Compares terms.now (places_of terms.now.places) (plain election.ballots.lines) election.roll bytes.now) }
{
    match terms.places {
        Places::Six => first_difference::<6, R>(rt, alloc, bytes, election, terms),
        Places::Seven => first_difference::<7, R>(rt, alloc, bytes, election, terms),
        Places::Eight => first_difference::<8, R>(rt, alloc, bytes, election, terms),
        Places::Nine => first_difference::<9, R>(rt, alloc, bytes, election, terms),
    }
}

/// The first line in which a text differs from the sheet of an election at `P` places, none where it is
/// the sheet. The count ends where the first difference is found.
fn first_difference<const P: usize, R: Threads + Sync>(
    rt: &R,
    alloc: Global,
    bytes: &[u8],
    election: Election,
    terms: &Terms,
) -> Result<Option<u64>, NoMemory>
    requires places { (6 ≤ P) × (P ≤ 9) }
    requires lots_of_all { length terms.now.lots ≡ length election.roll.names }
    requires ballots_of_all { election.ballots.candidates ≡ length election.roll.names }
    ensures { IfOk result (Compares terms.now P (plain election.ballots.lines) election.roll bytes.now) }
{
    let mut sink = Comparing::new(bytes);
    match write_sheet_by::<P, R, Comparing<'_>>(rt, alloc, election, terms, &mut sink)? {
        Ok(()) => Ok(sink.difference_from_whole()),
        Err(_) => Ok(Some(sink.difference_from_front())),
    }
}
