// The facts of every file.
ghost use Rattle.std.specs.Prelude.{◌≡◌, ◌+◌, ◌*◌, ◌<◌, ◌≤◌, ◌++◌, ◌∷◌, length, codes, decimal, OnOk, IfOk};
ghost use Rattle.plain_ballots.specs.declared.limits.TheConstants.{MOST_BALLOTS, MOST_CANDIDATES};
ghost use Rattle.candidate_roll.specs.Roll.{is_withdrawn};
ghost use Rattle.ballot_findings.specs.Lines.{count_line, first_line, for_each, hundredths, mean_text, only_if, text_line, withdrawn_text};
ghost use Rattle.ballot_findings.specs.Names.{name_of, running};
ghost use Rattle.ballot_findings.specs.Tally.{first_of};

use crate::names::name_of;
use crate::no_memory::NoMemory;
use crate::tally::Tally;
use crate::text::Text;
use candidate_roll::Roll;

/// How many candidates run.
pub(crate) fn running(roll: &Roll) -> u32
    ensures value { result ≡ running roll.now }
    ensures few { result ≤ MOST_CANDIDATES }
{
    let mut running = 0;
    for p in 0..roll.candidates() {
        if !roll.is_withdrawn(p + 1) {
            running += 1;
        }
    }
    running
}

/// The line of who is withdrawn.
pub(crate) fn push_withdrawn(text: &mut Text, roll: &Roll) -> Result<(), NoMemory>
    ensures { OnOk result (text.new ≡ text.old ++ text_line (codes "withdrawn") (withdrawn_text roll.now)) }
{
    text.push(b"withdrawn")?;
    push_withdrawn_numbers(text, roll)?;
    text.push(b"\n")
}

fn push_withdrawn_numbers(text: &mut Text, roll: &Roll) -> Result<(), NoMemory>
    ensures { OnOk result (text.new ≡ text.old ++ withdrawn_text roll.now) }
{
    if running(roll) == roll.candidates() {
        return text.push(b" none");
    }
    push_numbers(text, roll)
}

fn push_numbers(text: &mut Text, roll: &Roll) -> Result<(), NoMemory>
    ensures { OnOk result (text.new ≡ text.old
        ++ for_each (length roll.now.names) (λ c. only_if (is_withdrawn roll.now.withdrawn c) (32 ∷ decimal c))) }
{
    for p in 0..roll.candidates() {
        push_if_withdrawn(text, roll, p + 1)?;
    }
    Ok(())
}

fn push_if_withdrawn(text: &mut Text, roll: &Roll, c: u32) -> Result<(), NoMemory>
    requires { (1 ≤ c) × (c ≤ length roll.now.names) }
    ensures { OnOk result (text.new ≡ text.old ++ only_if (is_withdrawn roll.now.withdrawn c) (32 ∷ decimal c)) }
{
    if !roll.is_withdrawn(c) {
        return Ok(());
    }
    text.push(b" ")?;
    text.push_count(u64::from(c))
}

/// The lines of first preferences.
pub(crate) fn push_firsts(text: &mut Text, roll: &Roll, tally: &Tally) -> Result<(), NoMemory>
    requires { length tally.now.firsts ≡ length roll.now.names }
    ensures { OnOk result (text.new ≡ text.old
        ++ for_each (length roll.now.names) (λ c. first_line c (first_of tally.now c) (name_of roll.now.names c))) }
{
    for p in 0..roll.candidates() {
        push_first(text, p + 1, tally.first(p + 1), name_of(roll, p + 1))?;
    }
    Ok(())
}

fn push_first(text: &mut Text, c: u32, ballots: u64, name: &[u8]) -> Result<(), NoMemory>
    ensures { OnOk result (text.new ≡ text.old ++ first_line c ballots name.now) }
{
    text.push(b"first")?;
    text.push_numbers(&[u64::from(c), ballots])?;
    text.push_text_line(b" ", name)
}

/// The line of how many candidates a ballot ranks in the mean.
pub(crate) fn push_mean(text: &mut Text, tally: &Tally) -> Result<(), NoMemory>
    ensures { OnOk result (text.new ≡ text.old ++ text_line (codes "mean ") (mean_text tally.now.ranks tally.now.ballots)) }
{
    text.push(b"mean ")?;
    push_mean_text(text, tally.ranks(), tally.ballots())?;
    text.push(b"\n")
}

fn push_mean_text(text: &mut Text, ranks: u64, ballots: u64) -> Result<(), NoMemory>
    requires { ranks ≤ MOST_CANDIDATES * MOST_BALLOTS }
    ensures { OnOk result (text.new ≡ text.old ++ mean_text ranks ballots) }
{
    if ballots == 0 {
        return text.push(b"none");
    }
    push_hundredths(text, 100 * ranks / ballots)
}

fn push_hundredths(text: &mut Text, n: u64) -> Result<(), NoMemory>
    ensures { OnOk result (text.new ≡ text.old ++ hundredths n) }
{
    text.push_count(n / 100)?;
    text.push(b".")?;
    text.push_count(n / 10 % 10)?;
    text.push_count(n % 10)
}
