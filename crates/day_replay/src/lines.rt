// The lines of a text, and who called by them.
ghost use Rattle.std.specs.Prelude.{◌≡◌, ◌≢◌, [], ◌++◌, ◌≤◌, ℕ, List, IsTrue, false, ◌↔◌, MatchOption, length};
ghost use Rattle.batch_core.specs.declared.limits.TheConstants.{MOST_TEAMS};
ghost use Rattle.sheet_check.specs.Difference.{behind_line, first_line};
ghost use Rattle.day_replay.specs.Saying.{BeginsWith, Says};
ghost use Rattle.day_replay.specs.Calls.{left_of};

use crate::left::Left;
use batch_core::MOST_TEAMS;
use line_text::Line;

/// The first line of a text, with its line feed, and what is after it.
pub(crate) fn next_line(text: &[u8]) -> (&[u8], &[u8])
    ensures line { result.0.now ≡ first_line text.now }
    ensures rest { result.1.now ≡ behind_line text.now }
{
    for at in 0..text.len() {
        if text[at] == b'\n' {
            return text.split_at(at + 1);
        }
    }
    text.split_at(text.len())
}

/// The team with calls left that has made the n-th call, by the line of this call.
#[tactic(auto, using(crate::proofs::Rooms::rooms))]
pub(crate) fn team_said(line: &[u8], n: u64, left: &Left) -> Option<u32>
    requires { length left.now.teams.items ≡ MOST_TEAMS }
    ensures { MatchOption result
        ((team : ℕ) → 1 ≤ team → Says n team line.now → left_of left.now.teams.items team ≡ [])
        (λ team. (1 ≤ team) × (team ≤ MOST_TEAMS) × Says n team line.now × (1 ≤ length (left_of left.now.teams.items team))) }
{
    let mut front = Line::new();
    front.push_count(n);
    front.push_bytes(b" team ");
    let Some(rest) = behind(line, front.bytes()) else {
        return None;
    };
    for place in 0..MOST_TEAMS {
        if is_next(rest, place + 1, left) {
            return Some(place + 1);
        }
    }
    None
}

/// Whether a team has calls left, and a text begins with its number.
fn is_next(text: &[u8], team: u32, left: &Left) -> bool
    requires teams { length left.now.teams.items ≡ MOST_TEAMS }
    requires team { (1 ≤ team) × (team ≤ MOST_TEAMS) }
    ensures named { IsTrue result → BeginsWith team text.now × (1 ≤ length (left_of left.now.teams.items team)) }
    ensures other { result ≡ false → BeginsWith team text.now → left_of left.now.teams.items team ≡ [] }
{
    left.has(team) && begins_with(text, team)
}

/// Whether a text begins with a number and a space.
#[tactic(auto, using(crate::proofs::Rooms::rooms))]
fn begins_with(text: &[u8], number: u32) -> bool
    ensures { IsTrue result ↔ BeginsWith number text.now }
{
    let mut front = Line::new();
    front.push_count(number as u64);
    front.push_bytes(b" ");
    behind(text, front.bytes()).is_some()
}

/// What is after this front.
fn behind<'a>(text: &'a [u8], front: &[u8]) -> Option<&'a [u8]>
    ensures { MatchOption result ((rest : List ℕ) → text.now ≢ front.now ++ rest)
        (λ rest. text.now ≡ front.now ++ rest.now) }
{
    if text.len() < front.len() {
        return None;
    }
    let (start, rest) = text.split_at(front.len());
    if is_same(start, front) {
        Some(rest)
    } else {
        None
    }
}

fn is_same(text: &[u8], other: &[u8]) -> bool
    ensures { IsTrue result ↔ (text.now ≡ other.now) }
{
    text == other
}
