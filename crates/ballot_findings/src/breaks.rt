// What of the tokens of a file wants a look, each with its line and its column.
ghost use Rattle.std.specs.Prelude.{◌≡◌, ◌+◌, ◌++◌, [], OnOk, IfOk, IfSome, IfNone, codes, drop};
ghost use Rattle.input_text.specs.Reader.{placed};
ghost use Rattle.ballot_findings.specs.Counted.{counted, with_line, with_line_if};
ghost use Rattle.ballot_findings.specs.Lines.{place_line, told};
ghost use Rattle.ballot_findings.specs.Breaks.{break_lines, further_lines, is_parted, longer_lines, parted_from, place_warnings, string_lines};
ghost use Rattle.ballot_findings.specs.Places.{IsMarkOf};
ghost use Rattle.ballot_findings.specs.Sites.{strings};

use crate::counted::{push_more, push_told};
use crate::mark::{Mark, mark_of, start};
use crate::no_memory::NoMemory;
use crate::reading::{goes_on, next_string, next_token};
use crate::text::Text;
use crate::unseen::{push_apart, push_far, push_return};
use input_text::{Token, Tokens};
use tool_edge::FILE_LIMIT;

/// The lines on seats that are not on the line of the candidates, on ballots that a line break parts, on strings after the
/// title where so many candidates run, on what a reader may not see, and on a file that is longer than a count reads.
pub(crate) fn push_places(text: &mut Text, input: &[u8], candidates: u32) -> Result<(), NoMemory>
    ensures { OnOk result (text.new ≡ text.old ++ place_warnings input.now candidates) }
{
    push_apart(text, input)?;
    push_breaks(text, input)?;
    push_further(text, input, candidates)?;
    push_far(text, input)?;
    push_return(text, input)?;
    push_longer(text, input, FILE_LIMIT)
}

/// The lines on ballots that a line break parts.
fn push_breaks(text: &mut Text, input: &[u8]) -> Result<(), NoMemory>
    ensures { OnOk result (text.new ≡ text.old ++ break_lines input.now) }
{
    let mut tokens = Tokens::new(input, false);
    next_token(&mut tokens);
    next_token(&mut tokens);
    match next_token(&mut tokens) {
        Some(first) => push_parted(text, input, &mut tokens, first),
        None => Ok(()),
    }
}

/// The lines on this token and those after it.
fn push_parted(
    text: &mut Text,
    input: &[u8],
    tokens: &mut Tokens<'_>,
    first: Token,
) -> Result<(), NoMemory>
    requires { tokens.old.bytes ≡ input.now }
    ensures { OnOk result (text.new ≡ text.old
        ++ told (λ token. place_line input.now (codes "look line ends within a ballot") [] token.at)
        (parted_from input.now (placed input.now first) tokens.old.rest.tokens)) }
{
    let mut count = 0;
    let mut last = first;
    let mut mark = mark_of(input, start(input), first.at);
    while let Some(next) = next_token(tokens) {
        let ahead = mark_of(input, mark, next.at);
        push_if_parted(text, &mut count, input, last, mark, next, ahead)?;
        last = next;
        mark = ahead;
    }
    push_more(text, count)
}

/// The line on a token, where it is parted from the next one. Each has its mark.
fn push_if_parted(
    text: &mut Text,
    count: &mut u64,
    input: &[u8],
    last: Token,
    mark: Mark,
    next: Token,
    ahead: Mark,
) -> Result<(), NoMemory>
    requires last { IsMarkOf input.now last.at mark }
    requires next { IsMarkOf input.now next.at ahead }
    ensures { OnOk result (counted text.new count.new
        ≡ with_line_if (is_parted input.now (placed input.now last) (placed input.now next))
        (counted text.old count.old) (place_line input.now (codes "look line ends within a ballot") [] last.at)) }
{
    if !goes_on(last.what) || mark.line == ahead.line {
        return Ok(());
    }
    push_told(text, count, b"look line ends within a ballot", &[], mark)
}

/// The lines on strings that are neither the name of one of so many candidates nor the title.
fn push_further(text: &mut Text, input: &[u8], candidates: u32) -> Result<(), NoMemory>
    ensures { OnOk result (text.new ≡ text.old ++ further_lines input.now candidates) }
{
    let mut tokens = Tokens::new(input, false);
    pass_strings(&mut tokens, candidates);
    next_string(&mut tokens);
    push_strings(text, input, &mut tokens)
}

/// Passes over so many strings, or over all where there are fewer.
fn pass_strings(tokens: &mut Tokens<'_>, count: u32)
    ensures bytes { tokens.new.bytes ≡ tokens.old.bytes }
    ensures rest { strings tokens.new.rest.tokens ≡ drop count (strings tokens.old.rest.tokens) }
{
    for _ in 0..count {
        next_string(tokens);
    }
}

/// The lines on all strings that are still to come.
fn push_strings(text: &mut Text, input: &[u8], tokens: &mut Tokens<'_>) -> Result<(), NoMemory>
    requires { tokens.old.bytes ≡ input.now }
    ensures { OnOk result (text.new ≡ text.old ++ string_lines input.now (strings tokens.old.rest.tokens)) }
{
    let mut count = 0;
    let mut mark = start(input);
    while let Some(token) = next_string(tokens) {
        mark = mark_of(input, mark, token.at);
        push_string(text, &mut count, input, token, mark)?;
    }
    push_more(text, count)
}

/// The line on a string of this mark.
fn push_string(
    text: &mut Text,
    count: &mut u64,
    input: &[u8],
    token: Token,
    mark: Mark,
) -> Result<(), NoMemory>
    requires { IsMarkOf input.now token.at mark }
    ensures { OnOk result (counted text.new count.new
        ≡ with_line (counted text.old count.old)
        (place_line input.now (codes "look string behind the title") [] token.at)) }
{
    push_told(text, count, b"look string behind the title", &[], mark)
}

/// The line on a file that is longer than a count reads, which are so many bytes.
#[tactic(auto, unfolding(crate::specs::Breaks::longer_lines))]
fn push_longer(text: &mut Text, input: &[u8], most: usize) -> Result<(), NoMemory>
    ensures { OnOk result (text.new ≡ text.old ++ longer_lines most input.now) }
{
    if input.len() <= most {
        return Ok(());
    }
    let behind = mark_of(input, start(input), most);
    text.push_place_line(b"look longer than a count reads", &[most as u64], behind)
}
