// One pass over the ballots of a file, and the text of what was read.
ghost use Rattle.std.specs.Prelude.{◌≡◌, ◌≤◌, ◌++◌, length, IfOk, OnOk};
ghost use Rattle.std.specs.List.{flat_map};
ghost use Rattle.ballot_findings.specs.Findings.{whole_text};
ghost use Rattle.ballot_findings.specs.Breaks.{place_warnings};
ghost use Rattle.ballot_findings.specs.Lines.{ballots_text, count_text, count_warnings, facts_text, name_warnings, odd_name_lines, odd_title_lines, roll_text, text_of};
ghost use Rattle.ballot_findings.specs.Looked.{IsLooked, figures_of};
ghost use Rattle.ballot_findings.specs.Tally.{was_ranked};

use crate::ballot_file::BallotFile;
use crate::breaks::push_places;
use crate::doubt::Doubt;
use crate::likeness::Likeness;
use crate::lines::{push_firsts, push_mean, push_withdrawn};
use crate::no_memory::NoMemory;
use crate::oddity::Oddity;
use crate::said::Said;
use crate::tally::Tally;
use crate::text::Text;
use crate::warnings::{
    push_doubts, push_enough_seats, push_many_seats, push_of_withdrawn, push_pairs, push_title,
};
use candidate_roll::Roll;
use plain_ballots::{BallotLine, Ballots};
use std::alloc::Global;

/// What the lines of a file come to.
#[derive(Drop)]
pub(crate) struct Looked {
    pub lines: u64,
    pub repeats: u64,
    pub tally: Tally,
}

/// Counts the ballots of a file, in one pass over its lines.
fn looked_at(alloc: Global, roll: &Roll, ballots: &Ballots) -> Result<Looked, NoMemory>
    requires { ballots.now.candidates ≡ length roll.now.names }
    ensures { IfOk result (IsLooked roll.now ballots.now.lines) }
{
    let mut said = Said::new(alloc);
    let mut tally = Tally::new(alloc, roll.candidates())?;
    let mut repeats = 0;
    let lines = ballots.lines();
    for line in lines {
        tally.add(roll, line);
        if said.say(line.ranking.ranks())? {
            repeats += 1;
        }
    }
    Ok(Looked {
        lines: lines.len() as u64,
        repeats,
        tally,
    })
}

/// What is said of a ballot file: of the roll and the ballots that were read of the bytes `input`, and after it what of
/// the places in these bytes wants a look. The ballots are gone through once.
pub fn findings_of(
    alloc: Global,
    input: &[u8],
    roll: &Roll,
    ballots: &Ballots,
) -> Result<Text, NoMemory>
    requires { ballots.now.candidates ≡ length roll.now.names }
    ensures { IfOk result (λ text. text ≡ whole_text input.now (record { roll = roll.now; lines = ballots.now.lines })) }
{
    let looked = looked_at(alloc, roll, ballots)?;
    whole_text(alloc, input, roll, &looked)
}

/// The text of what was counted, and of what of the places in the file wants a look.
fn whole_text(alloc: Global, input: &[u8], roll: &Roll, looked: &Looked) -> Result<Text, NoMemory>
    requires firsts { length looked.now.tally.firsts ≡ length roll.now.names }
    requires ranked { length looked.now.tally.ranked ≡ length roll.now.names }
    ensures { IfOk result (λ text. text ≡ text_of input.now roll.now (figures_of looked.now)
        ++ place_warnings input.now (length roll.now.names)) }
{
    let file = BallotFile::new(alloc, input, roll)?;
    let mut text = text_of(alloc, &file, looked)?;
    push_places(&mut text, input, roll.candidates())?;
    Ok(text)
}

/// The text of what was read.
fn text_of(alloc: Global, file: &BallotFile<'_>, looked: &Looked) -> Result<Text, NoMemory>
    requires firsts { length looked.now.tally.firsts ≡ length file.now.roll.names }
    requires ranked { length looked.now.tally.ranked ≡ length file.now.roll.names }
    ensures { IfOk result (λ text. text ≡ text_of file.now.input file.now.roll (figures_of looked.now)) }
{
    let mut text = Text::new(alloc);
    push_facts(&mut text, file.roll(), looked)?;
    push_name_warnings(alloc, &mut text, file, &looked.tally)?;
    push_count_warnings(&mut text, file, &looked.tally)?;
    Ok(text)
}

/// The facts of every file.
fn push_facts(text: &mut Text, roll: &Roll, looked: &Looked) -> Result<(), NoMemory>
    requires { length looked.now.tally.firsts ≡ length roll.now.names }
    ensures { OnOk result (text.new ≡ text.old ++ facts_text roll.now (figures_of looked.now)) }
{
    push_ballots(text, looked)?;
    push_roll(text, roll)?;
    push_counts(text, roll, looked)
}

/// How many ballots there are.
fn push_ballots(text: &mut Text, looked: &Looked) -> Result<(), NoMemory>
    ensures { OnOk result (text.new ≡ text.old
        ++ ballots_text looked.now.tally.ballots looked.now.lines looked.now.tally.empty) }
{
    text.push_count_line(b"ballots ", looked.tally.ballots())?;
    text.push_count_line(b"lines ", looked.lines)?;
    text.push_count_line(b"empty ", looked.tally.empty())
}

/// What the file says but the ballots and the names.
fn push_roll(text: &mut Text, roll: &Roll) -> Result<(), NoMemory>
    ensures { OnOk result (text.new ≡ text.old ++ roll_text roll.now) }
{
    text.push_count_line(b"candidates ", u64::from(roll.candidates()))?;
    text.push_count_line(b"seats ", u64::from(roll.seats()))?;
    push_withdrawn(text, roll)?;
    text.push_text_line(b"title ", roll.title().bytes())
}

/// What is counted of the ballots themselves.
fn push_counts(text: &mut Text, roll: &Roll, looked: &Looked) -> Result<(), NoMemory>
    requires { length looked.now.tally.firsts ≡ length roll.now.names }
    ensures { OnOk result (text.new ≡ text.old ++ count_text roll.now (figures_of looked.now)) }
{
    push_firsts(text, roll, &looked.tally)?;
    push_mean(text, &looked.tally)?;
    text.push_count_line(b"equal ", looked.repeats)
}

/// What of the names wants a look.
fn push_name_warnings(
    alloc: Global,
    text: &mut Text,
    file: &BallotFile<'_>,
    tally: &Tally,
) -> Result<(), NoMemory>
    requires { length tally.now.ranked ≡ length file.now.roll.names }
    ensures { OnOk result (text.new ≡ text.old ++ name_warnings file.now.input file.now.roll) }
{
    push_pairs(alloc, text, file, Likeness::Same)?;
    push_pairs(alloc, text, file, Likeness::Similar)?;
    push_odd_names(text, file, tally, &Oddity::all())?;
    push_odd_title(text, file, &Oddity::all())
}

/// The lines on names with each of these oddities.
fn push_odd_names(
    text: &mut Text,
    file: &BallotFile<'_>,
    tally: &Tally,
    oddities: &[Oddity],
) -> Result<(), NoMemory>
    requires { length tally.now.ranked ≡ length file.now.roll.names }
    ensures { OnOk result (text.new ≡ text.old
        ++ flat_map (odd_name_lines file.now.input file.now.roll) oddities.now) }
{
    for oddity in oddities {
        push_doubts(text, file, tally, Doubt::Name(*oddity))?;
    }
    Ok(())
}

/// The lines on the title with each of these oddities.
fn push_odd_title(
    text: &mut Text,
    file: &BallotFile<'_>,
    oddities: &[Oddity],
) -> Result<(), NoMemory>
    ensures { OnOk result (text.new ≡ text.old
        ++ flat_map (odd_title_lines file.now.input file.now.roll) oddities.now) }
{
    for oddity in oddities {
        push_title(text, file, *oddity)?;
    }
    Ok(())
}

/// What of the seats and the ballots wants a look.
fn push_count_warnings(
    text: &mut Text,
    file: &BallotFile<'_>,
    tally: &Tally,
) -> Result<(), NoMemory>
    requires { length tally.now.ranked ≡ length file.now.roll.names }
    ensures { OnOk result (text.new ≡ text.old
        ++ count_warnings file.now.input file.now.roll (was_ranked tally.now) tally.now.of_withdrawn) }
{
    push_many_seats(text, file)?;
    push_enough_seats(text, file)?;
    push_doubts(text, file, tally, Doubt::Unranked)?;
    push_of_withdrawn(text, file, tally)
}
