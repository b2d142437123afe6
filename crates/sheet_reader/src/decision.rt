// What an iteration in a sheet decided.
ghost use Rattle.std.specs.Prelude.{◌≡◌, ◌≢◌, ◌<◌, ◌≤◌, ◌^◌, [], ◌∷◌, ◌++◌, ℕ, Bool, List, IsTrue, true, length, MatchOption};
ghost use Rattle.plain_ballots.specs.declared.limits.TheConstants.{MOST_CANDIDATES};
ghost use Rattle.meek_rule.specs.declared.step.Step.{Step};
ghost use Rattle.meek_rule.specs.declared.step.Step.TheVariants.{Defeat};
ghost use Rattle.sheet_text.specs.Lines.{listed, marked_lines, step_line};
ghost use Rattle.meek_count.specs.Ranges.{HasTiedFor};
ghost use Rattle.sheet_reader.specs.Parts.{decision_lines_of, defeat_line};

use crate::cut::{cut, is_same, strip};
use crate::lines::Lines;
use crate::list::read_list;
use crate::number::read_count;
use lot_order::Flags;
use meek_rule::Step;

/// Reads who was elected, who was capped, and the step with the tied.
pub(crate) fn read_decision(
    lines: &mut Lines<'_>,
    elected: &mut Flags,
    capped: &mut Flags,
    tied: &mut Flags,
) -> Option<Step>
    requires few { length tied.old ≤ MOST_CANDIDATES }
    requires elected { length elected.old ≡ length tied.old }
    requires capped { length capped.old ≡ length tied.old }
    ensures elected { length elected.new ≡ length tied.old }
    ensures capped { length capped.new ≡ length tied.old }
    ensures tied { length tied.new ≡ length tied.old }
    ensures read { MatchOption result
        ((e c t : List Bool) (step : Step) (rest : List (List ℕ)) → length e ≡ length tied.old → length c ≡ length tied.old
        → length t ≡ length tied.old → HasTiedFor (length tied.old) step t
        → lines.old ≢ decision_lines_of e c step t ++ rest)
        (λ step. HasTiedFor (length tied.old) step tied.new
        × (lines.old ≡ decision_lines_of elected.new capped.new step tied.new ++ lines.new)) }
{
    if !read_marks(lines, b"elected", elected) {
        return None;
    }
    if !read_marks(lines, b"capped", capped) {
        return None;
    }
    let Some(line) = lines.next() else {
        return None;
    };
    read_step(line, tied)
}

/// Reads the line of a word and a list, where the next line begins with this word. Without such a line
/// nobody is marked.
fn read_marks(lines: &mut Lines<'_>, word: &[u8], marks: &mut Flags) -> bool
    requires few { length marks.old ≤ MOST_CANDIDATES }
    ensures same_length { length marks.new ≡ length marks.old }
    ensures sound { IsTrue result → lines.old ≡ marked_lines word.now marks.new ++ lines.new }
    ensures whole { (others : List Bool) (rest : List (List ℕ)) → length others ≡ length marks.old
        → ((text : List ℕ) (more : List (List ℕ)) → rest ≢ (word.now ++ text) ∷ more)
        → lines.old ≡ marked_lines word.now others ++ rest → (result ≡ true) × (lines.new ≡ rest) }
{
    let Some(list) = lines.next_after(word) else {
        marks.fill(false);
        return true;
    };
    if list.is_empty() {
        return false;
    }
    read_list(list, marks)
}

/// Reads a step and the list of the tied.
fn read_step(text: &[u8], tied: &mut Flags) -> Option<Step>
    requires few { length tied.old ≤ MOST_CANDIDATES }
    ensures same_length { length tied.new ≡ length tied.old }
    ensures read { MatchOption result
        ((step : Step) (others : List Bool) → length others ≡ length tied.old → HasTiedFor (length tied.old) step others
        → text.now ≢ step_line step others)
        (λ step. HasTiedFor (length tied.old) step tied.new × (text.now ≡ step_line step tied.new)) }
{
    if is_same(text, b"step elected") {
        tied.fill(false);
        return Some(Step::Elected);
    }
    if is_same(text, b"step iterate") {
        tied.fill(false);
        return Some(Step::Iterate);
    }
    match read_defeat(text, tied) {
        Some(c) => Some(Step::Defeat(c)),
        None => None,
    }
}

/// Reads the candidate whom a step defeated and the list of the tied, among whom the candidate stands.
fn read_defeat(text: &[u8], tied: &mut Flags) -> Option<u32>
    requires few { length tied.old ≤ MOST_CANDIDATES }
    ensures same_length { length tied.new ≡ length tied.old }
    ensures read { MatchOption result
        ((c : ℕ) (others : List Bool) → length others ≡ length tied.old → HasTiedFor (length tied.old) (Defeat c) others
        → text.now ≢ defeat_line c (listed 1 others))
        (λ c. HasTiedFor (length tied.old) (Defeat c) tied.new × (text.now ≡ defeat_line c (listed 1 tied.new))) }
{
    let Some((c, list)) = defeat_parts(text) else {
        return None;
    };
    if !read_list(list, tied) {
        return None;
    }
    if c < 1 {
        return None;
    }
    if c > tied.len() as u64 {
        return None;
    }
    if !*tied.get(c as usize - 1) {
        return None;
    }
    Some(c as u32)
}

/// The number of a defeated candidate, and the list after it.
fn defeat_parts(text: &[u8]) -> Option<(u64, &[u8])>
    ensures { MatchOption result
        ((c : ℕ) (list : List ℕ) → c < 2 ^ 64 → text.now ≢ defeat_line c list)
        (λ parts. (parts.0 < 2 ^ 64) × (text.now ≡ defeat_line parts.0 parts.1.now)) }
{
    let Some(defeat) = strip(text, b"step defeat ") else {
        return None;
    };
    let Some((number, rest)) = cut(defeat, b' ') else {
        return None;
    };
    let Some(list) = strip(rest, b"tied") else {
        return None;
    };
    match read_count(number) {
        Some(c) => Some((c, list)),
        None => None,
    }
}
