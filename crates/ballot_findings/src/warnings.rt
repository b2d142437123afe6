// What wants a look.
ghost use Rattle.std.specs.Prelude.{◌≡◌, ◌+◌, ◌-◌, ◌<◌, ◌≤◌, ◌++◌, length, OnOk, IfOk};
ghost use Rattle.std.specs.List.{filter, range_with_len};
ghost use Rattle.ballot_findings.specs.Counted.{counted, with_line_if, with_lines};
ghost use Rattle.ballot_findings.specs.Doubts.{are_like, doubt_words, is_doubtful, like_words};
ghost use Rattle.ballot_findings.specs.Lines.{candidate_line, candidate_lines, enough_seats_lines, many_seats_lines, odd_title_lines, pair_line, pair_lines, seats_line, withdrawn_lines};

use crate::ballot_file::BallotFile;
use crate::counted::{push_more, push_told};
use crate::doubt::Doubt;
use crate::likeness::Likeness;
use crate::lines::running;
use crate::names::{have_like_names, have_one_name, name_of};
use crate::no_memory::NoMemory;
use crate::odd::is_odd;
use crate::oddity::Oddity;
use crate::tally::Tally;
use crate::text::Text;
use candidate_roll::Roll;
use std::alloc::Global;

/// The lines of a kind on single candidates.
pub(crate) fn push_doubts(
    text: &mut Text,
    file: &BallotFile<'_>,
    tally: &Tally,
    doubt: Doubt,
) -> Result<(), NoMemory>
    requires { length tally.now.ranked ≡ length file.now.roll.names }
    ensures { OnOk result (text.new ≡ text.old
        ++ candidate_lines file.now.input (doubt_words doubt) (length file.now.roll.names)
        (is_doubtful doubt file.now.roll tally.now)) }
{
    let mut count = 0;
    for p in 0..file.roll().candidates() {
        push_doubt(text, &mut count, file, tally, doubt, p + 1)?;
    }
    push_more(text, count)
}

fn push_doubt(
    text: &mut Text,
    count: &mut u64,
    file: &BallotFile<'_>,
    tally: &Tally,
    doubt: Doubt,
    c: u32,
) -> Result<(), NoMemory>
    requires named { (1 ≤ c) × (c ≤ length file.now.roll.names) }
    requires tallied { length tally.now.ranked ≡ length file.now.roll.names }
    ensures { OnOk result (counted text.new count.new
        ≡ with_line_if (is_doubtful doubt file.now.roll tally.now c) (counted text.old count.old)
        (candidate_line file.now.input (doubt_words doubt) c)) }
{
    if !is_doubtful(file.roll(), tally, doubt, c) {
        return Ok(());
    }
    push_told(text, count, doubt.words(), &[u64::from(c)], file.name(c))
}

fn is_doubtful(roll: &Roll, tally: &Tally, doubt: Doubt, c: u32) -> bool
    requires named { (1 ≤ c) × (c ≤ length roll.now.names) }
    requires tallied { length tally.now.ranked ≡ length roll.now.names }
    ensures { result ≡ is_doubtful doubt roll.now tally.now c }
{
    match doubt {
        Doubt::Name(oddity) => is_odd(oddity, name_of(roll, c)),
        Doubt::Unranked => !tally.was_ranked(c),
    }
}

/// The line of a kind on the title, where it has one.
pub(crate) fn push_title(
    text: &mut Text,
    file: &BallotFile<'_>,
    oddity: Oddity,
) -> Result<(), NoMemory>
    ensures { OnOk result (text.new ≡ text.old ++ odd_title_lines file.now.input file.now.roll oddity) }
{
    if !is_odd(oddity, file.roll().title().bytes()) {
        return Ok(());
    }
    text.push_place_line(oddity.title_words(), &[], file.title())
}

/// The lines of a kind on pairs of candidates.
pub(crate) fn push_pairs(
    alloc: Global,
    text: &mut Text,
    file: &BallotFile<'_>,
    likeness: Likeness,
) -> Result<(), NoMemory>
    ensures { OnOk result (text.new ≡ text.old
        ++ pair_lines file.now.input (like_words likeness) (length file.now.roll.names)
        (are_like likeness file.now.roll.names)) }
{
    let mut count = 0;
    for p in 0..file.roll().candidates() {
        push_pairs_of(alloc, text, &mut count, file, likeness, p + 1)?;
    }
    push_more(text, count)
}

/// The lines on candidate `c` with each of a greater number.
fn push_pairs_of(
    alloc: Global,
    text: &mut Text,
    count: &mut u64,
    file: &BallotFile<'_>,
    likeness: Likeness,
    c: u32,
) -> Result<(), NoMemory>
    requires { (1 ≤ c) × (c ≤ length file.now.roll.names) }
    ensures { OnOk result (counted text.new count.new
        ≡ with_lines (pair_line file.now.input (like_words likeness) c) (counted text.old count.old)
        (filter (are_like likeness file.now.roll.names c) (range_with_len (c + 1) (length file.now.roll.names - c)))) }
{
    for p in 0..file.roll().candidates() - c {
        push_pair(alloc, text, count, file, likeness, c, c + 1 + p)?;
    }
    Ok(())
}

fn push_pair(
    alloc: Global,
    text: &mut Text,
    count: &mut u64,
    file: &BallotFile<'_>,
    likeness: Likeness,
    c: u32,
    d: u32,
) -> Result<(), NoMemory>
    requires one { (1 ≤ c) × (c ≤ length file.now.roll.names) }
    requires other { (1 ≤ d) × (d ≤ length file.now.roll.names) }
    ensures { OnOk result (counted text.new count.new
        ≡ with_line_if (are_like likeness file.now.roll.names c d) (counted text.old count.old)
        (pair_line file.now.input (like_words likeness) c d)) }
{
    if !are_like(alloc, file.roll(), likeness, c, d)? {
        return Ok(());
    }
    let numbers = [u64::from(c), u64::from(d)];
    push_told(text, count, likeness.words(), &numbers, file.name(d))
}

fn are_like(
    alloc: Global,
    roll: &Roll,
    likeness: Likeness,
    c: u32,
    d: u32,
) -> Result<bool, NoMemory>
    requires one { (1 ≤ c) × (c ≤ length roll.now.names) }
    requires other { (1 ≤ d) × (d ≤ length roll.now.names) }
    ensures { IfOk result (λ like. like ≡ are_like likeness roll.now.names c d) }
{
    match likeness {
        Likeness::Same => Ok(have_one_name(roll, c, d)),
        Likeness::Similar => have_like_names(alloc, roll, c, d),
    }
}

/// The line of more seats than candidates, where there are.
pub(crate) fn push_many_seats(text: &mut Text, file: &BallotFile<'_>) -> Result<(), NoMemory>
    ensures { OnOk result (text.new ≡ text.old ++ many_seats_lines file.now.input file.now.roll) }
{
    let roll = file.roll();
    if roll.candidates() >= roll.seats() {
        return Ok(());
    }
    push_seats(text, file, b"look more seats than candidates")
}

/// The line of a seat for everybody who runs, where there is.
pub(crate) fn push_enough_seats(text: &mut Text, file: &BallotFile<'_>) -> Result<(), NoMemory>
    ensures { OnOk result (text.new ≡ text.old ++ enough_seats_lines file.now.input file.now.roll) }
{
    let roll = file.roll();
    if running(roll) > roll.seats() {
        return Ok(());
    }
    push_seats(text, file, b"look a seat for everybody who runs")
}

fn push_seats(text: &mut Text, file: &BallotFile<'_>, words: &[u8]) -> Result<(), NoMemory>
    ensures { OnOk result (text.new ≡ text.old ++ seats_line file.now.input words.now) }
{
    text.push_place_line(words, &[], file.seats())
}

/// The line of ballots that rank withdrawn candidates, where there are any.
pub(crate) fn push_of_withdrawn(
    text: &mut Text,
    file: &BallotFile<'_>,
    tally: &Tally,
) -> Result<(), NoMemory>
    ensures { OnOk result (text.new ≡ text.old
        ++ withdrawn_lines file.now.input file.now.roll.withdrawn tally.now.of_withdrawn) }
{
    let ballots = tally.of_withdrawn();
    if ballots == 0 {
        return Ok(());
    }
    let words = b"look ballots with withdrawn candidates";
    text.push_place_line(words, &[ballots], file.withdrawn())
}
