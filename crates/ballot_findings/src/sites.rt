// Where in a file its names, its number of seats and its withdrawn candidates stand, each with its line and column.
ghost use Rattle.std.specs.Prelude.{◌≡◌, ◌∷◌, ℕ, List, IfOk, drop, slice_index};
ghost use Rattle.input_text.specs.Reader.{placed, said};
ghost use Rattle.ballot_findings.specs.Places.{IsMark, IsMarkOf};
ghost use Rattle.ballot_findings.specs.Sites.{AreNameMarks, candidates_at, is_of_withdrawn, places, seats_at, strings, withdrawn_at, withdrawn_ranks};

use crate::mark::{Mark, mark_of, start};
use crate::no_memory::NoMemory;
use crate::reading::{goes_on, next_string, next_token};
use candidate_roll::Roll;
use input_text::{Token, Tokens, What};
use std::alloc::Global;

/// Where the first strings stand, so many of them: the name of candidate c at index c - 1, and the title after all names.
pub(crate) fn name_marks(alloc: Global, input: &[u8], count: u32) -> Result<Vec<Mark>, NoMemory>
    ensures { IfOk result (λ marks. AreNameMarks input.now count marks.items) }
{
    let mut tokens = Tokens::new(input, false);
    let mut marks = Vec::new(alloc);
    let mut mark = start(input);
    for _ in 0..count {
        mark = next_string_mark(input, &mut tokens, mark);
        marks.push(mark)?;
    }
    Ok(marks)
}

/// Where the next string stands, which is not before a mark.
fn next_string_mark(input: &[u8], tokens: &mut Tokens<'_>, from: Mark) -> Mark
    requires { IsMark input.now from }
    ensures is { IsMarkOf input.now (slice_index (places (strings tokens.old.rest.tokens)) 0) result }
    ensures rest { strings tokens.new.rest.tokens ≡ drop 1 (strings tokens.old.rest.tokens) }
{
    match next_string(tokens) {
        Some(token) => mark_of(input, from, token.at),
        None => mark_of(input, from, 0),
    }
}

/// Where the number of candidates stands.
pub(crate) fn candidates_mark(input: &[u8]) -> Mark
    ensures { IsMarkOf input.now (candidates_at input.now) result }
{
    let mut tokens = Tokens::new(input, false);
    mark_of(input, start(input), next_place(&mut tokens))
}

/// Where the number of seats stands.
pub(crate) fn seats_mark(input: &[u8]) -> Mark
    ensures { IsMarkOf input.now (seats_at input.now) result }
{
    let mut tokens = Tokens::new(input, false);
    next_token(&mut tokens);
    mark_of(input, start(input), next_place(&mut tokens))
}

/// The place of the next token, or the front where there is none.
fn next_place(tokens: &mut Tokens<'_>) -> usize
    ensures { result ≡ slice_index (places tokens.old.rest.tokens) 0 }
{
    match next_token(tokens) {
        Some(token) => token.at,
        None => 0,
    }
}

/// Where the first withdrawn candidate on a ballot stands.
pub(crate) fn withdrawn_mark(input: &[u8], roll: &Roll) -> Mark
    ensures { IsMarkOf input.now (withdrawn_at input.now roll.now.withdrawn) result }
{
    let mut tokens = Tokens::new(input, false);
    next_token(&mut tokens);
    next_token(&mut tokens);
    mark_of(input, start(input), first_withdrawn(&mut tokens, roll))
}

/// The place of the first withdrawn candidate on the ballots that are still to come, or the front.
fn first_withdrawn(tokens: &mut Tokens<'_>, roll: &Roll) -> usize
    ensures { result ≡ slice_index (places (withdrawn_ranks roll.now.withdrawn tokens.old.rest.tokens)) 0 }
{
    match next_token(tokens) {
        Some(first) => withdrawn_behind(tokens, roll, first),
        None => 0,
    }
}

/// The same, where a token was taken.
fn withdrawn_behind(tokens: &mut Tokens<'_>, roll: &Roll, first: Token) -> usize
    ensures { result ≡ slice_index (places (withdrawn_ranks roll.now.withdrawn
        (placed tokens.old.bytes first ∷ tokens.old.rest.tokens))) 0 }
{
    let mut last = first;
    while let Some(next) = next_token(tokens) {
        if goes_on(last.what) && is_of_withdrawn(roll, next.what) {
            return next.at;
        }
        last = next;
    }
    0
}

/// Whether a token that says this is the number of a withdrawn candidate.
fn is_of_withdrawn(roll: &Roll, what: What) -> bool
    ensures { (bytes : List ℕ) (at stop : ℕ)
        → result ≡ is_of_withdrawn roll.now.withdrawn (said bytes at stop what) }
{
    match what {
        What::Number(n) => n != 0 && n <= roll.candidates() && roll.is_withdrawn(n),
        What::Minus(_) => false,
        What::Text => false,
        What::Word => false,
    }
}
