// Words and lists of candidates within a line.
ghost use Rattle.std.specs.Prelude.{◌≡◌, ◌+◌, ◌*◌, ◌<◌, ◌≤◌, ◌++◌, [], ◌∷◌, length, decimal};
ghost use Rattle.std.specs.List.{list_any};
ghost use Rattle.plain_ballots.specs.declared.limits.TheConstants.{MOST_CANDIDATES};
ghost use Rattle.sheet_text.specs.Lines.{state_word, listed};

use candidate_roll::State;
use line_text::Line;
use lot_order::Flags;

pub(crate) fn word_of(state: State) -> &'static [u8]
    ensures word { result.now ≡ state_word state }
    ensures short { length result.now ≤ 9 }
{
    match state {
        State::Hopeful => b"hopeful",
        State::Elected => b"elected",
        State::Defeated => b"defeated",
        State::Withdrawn => b"withdrawn",
    }
}

/// Begins the line of the candidate at place `p`: its number and its state, with a space after.
#[tactic(auto, using(crate::proofs::Rooms::rooms))]
pub(crate) fn begin_candidate(line: &mut Line, p: usize, state: State)
    requires { p < MOST_CANDIDATES }
    ensures text { line.new ≡ decimal (p + 1) ++ 32 ∷ state_word state ++ 32 ∷ [] }
    ensures short { length line.new ≤ 14 }
{
    line.clear();
    line.push_count(p as u64 + 1);
    line.push_bytes(b" ");
    line.push_bytes(word_of(state));
    line.push_bytes(b" ");
}

/// Whether somebody is marked.
pub(crate) fn is_any(marks: &Flags) -> bool
    ensures { result ≡ list_any (λ mark. mark) marks.now }
{
    marks.items().iter().any(|mark| *mark)
}

/// Appends the marked candidates, each after a space.
pub(crate) fn push_listed(line: &mut Line, marks: &Flags)
    requires few { length marks.now ≤ MOST_CANDIDATES }
    requires room { length line.old + 4 * length marks.now ≤ 1400 }
    ensures list { line.new ≡ line.old ++ listed 1 marks.now }
    ensures bound { length line.new ≤ length line.old + 4 * length marks.now }
{
    for (p, mark) in marks.items().iter().enumerate() {
        if *mark {
            push_listed_one(line, p as u64 + 1);
        }
    }
}

#[tactic(auto, using(crate::proofs::Rooms::rooms))]
fn push_listed_one(line: &mut Line, c: u64)
    requires few { c ≤ MOST_CANDIDATES }
    requires room { length line.old + 4 ≤ 1400 }
    ensures list { line.new ≡ line.old ++ 32 ∷ decimal c }
    ensures bound { length line.new ≤ length line.old + 4 }
{
    line.push_bytes(b" ");
    line.push_count(c);
}
