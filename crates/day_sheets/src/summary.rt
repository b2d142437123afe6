// The summary of a made day.
ghost use Rattle.std.specs.Prelude.{◌≡◌, ◌+◌, ◌*◌, ◌≤◌, ◌++◌, ◌∷◌, [], map, length, decimal};
ghost use Rattle.plain_ballots.specs.declared.limits.TheConstants.{MOST_CANDIDATES};
ghost use Rattle.meek_rule.specs.Situation.{is_elected};
ghost use Rattle.sheet_text.specs.Lines.{ended, listed, text_of_lines};
ghost use Rattle.day_sheets.specs.Summary.{summary_lines};

use candidate_roll::{State, States};
use line_text::Line;

/// What is summed up of a made day: its number, the number of its calls, of the batches and ballots that stand at
/// the end, and of the rounds and iterations of their count.
#[derive(Clone, Copy)]
pub(crate) struct Summary {
    pub(crate) number: u32,
    pub(crate) calls: u64,
    pub(crate) batches: u64,
    pub(crate) ballots: u64,
    pub(crate) rounds: u32,
    pub(crate) iterations: u64,
}

impl Summary {
    /// Its text, with the candidates who are elected in these last states.
    pub(crate) fn text(&self, last: &States) -> Line
        requires { length last.now ≤ MOST_CANDIDATES }
        ensures { result ≡ text_of_lines (summary_lines self.now last.now) }
    {
        let mut line = Line::new();
        push_number_line(&mut line, b"trial ", self.number as u64);
        push_number_line(&mut line, b"calls ", self.calls);
        push_number_line(&mut line, b"batches ", self.batches);
        push_number_line(&mut line, b"ballots ", self.ballots);
        push_number_line(&mut line, b"rounds ", self.rounds as u64);
        push_number_line(&mut line, b"iterations ", self.iterations);
        line.push_bytes(b"elected");
        push_elected(&mut line, last);
        line.push_bytes(b"\n");
        line
    }
}

/// Appends a line of a word, whose last byte is a space, and a number.
#[tactic(auto, using(crate::proofs::Rooms::rooms))]
fn push_number_line(line: &mut Line, word: &[u8], n: u64)
    requires room { length line.old + (length word.now + 21) ≤ 1400 }
    ensures text { line.new ≡ line.old ++ ended (word.now ++ decimal n) }
    ensures bound { length line.new ≤ length line.old + (length word.now + 21) }
{
    line.push_bytes(word);
    line.push_count(n);
    line.push_bytes(b"\n");
}

/// Appends the elected candidates, each after a space.
fn push_elected(line: &mut Line, states: &States)
    requires few { length states.now ≤ MOST_CANDIDATES }
    requires room { length line.old + 4 * length states.now ≤ 1400 }
    ensures list { line.new ≡ line.old ++ listed 1 (map is_elected states.now) }
    ensures bound { length line.new ≤ length line.old + 4 * length states.now }
{
    for (p, state) in states.items().iter().enumerate() {
        if is_elected(*state) {
            push_candidate(line, p as u64 + 1);
        }
    }
}

fn is_elected(state: State) -> bool
    ensures { result ≡ is_elected state }
{
    match state {
        State::Elected => true,
        State::Hopeful | State::Defeated | State::Withdrawn => false,
    }
}

#[tactic(auto, using(crate::proofs::Rooms::rooms))]
fn push_candidate(line: &mut Line, c: u64)
    requires few { c ≤ MOST_CANDIDATES }
    requires room { length line.old + 4 ≤ 1400 }
    ensures list { line.new ≡ line.old ++ 32 ∷ decimal c }
    ensures bound { length line.new ≤ length line.old + 4 }
{
    line.push_bytes(b" ");
    line.push_count(c);
}
