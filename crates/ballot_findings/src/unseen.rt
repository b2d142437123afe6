// What of a file a reader may not see.
ghost use Rattle.std.specs.Prelude.{◌≡◌, ◌==◌, ◌<◌, ◌++◌, [], length, slice_index, OnOk};
ghost use Rattle.std.specs.List.{list_any};
ghost use Rattle.ballot_findings.specs.Lines.{place_line};
ghost use Rattle.ballot_findings.specs.Unseen.{apart_lines, far_lines, is_far, is_lone, is_no_gap, return_lines};

use crate::mark::{mark_of, start};
use crate::no_memory::NoMemory;
use crate::reading::next_token;
use crate::sites::{candidates_mark, seats_mark};
use crate::text::Text;
use input_text::Tokens;

/// The line on a number of seats that is on another line than the number of candidates.
pub(crate) fn push_apart(text: &mut Text, input: &[u8]) -> Result<(), NoMemory>
    ensures { OnOk result (text.new ≡ text.old ++ apart_lines input.now) }
{
    let candidates = candidates_mark(input);
    let seats = seats_mark(input);
    if candidates.line == seats.line {
        return Ok(());
    }
    text.push_place_line(b"look seats on another line", &[], seats)
}

/// The line on the first number or string that stands far to the right.
pub(crate) fn push_far(text: &mut Text, input: &[u8]) -> Result<(), NoMemory>
    ensures { OnOk result (text.new ≡ text.old ++ far_lines input.now) }
{
    let mut tokens = Tokens::new(input, false);
    while let Some(token) = next_token(&mut tokens) {
        if is_far(input, token.at) {
            return push_place(text, input, b"look hidden by blanks", token.at);
        }
    }
    Ok(())
}

/// Whether a hundred blanks stand before a place.
fn is_far(text: &[u8], place: usize) -> bool
    ensures { result ≡ is_far text.now place }
{
    100 <= place && place <= text.len() && !has_no_gap(&text[place - 100..place])
}

/// Whether a byte among these is no blank.
fn has_no_gap(bytes: &[u8]) -> bool
    ensures { result ≡ list_any is_no_gap bytes.now }
{
    for byte in bytes {
        if is_no_gap(*byte) {
            return true;
        }
    }
    false
}

fn is_no_gap(byte: u8) -> bool
    ensures { result ≡ is_no_gap byte }
{
    !(byte == b' ' || byte == b'\t')
}

/// The line on the first carriage return with no line feed after it.
pub(crate) fn push_return(text: &mut Text, input: &[u8]) -> Result<(), NoMemory>
    ensures { OnOk result (text.new ≡ text.old ++ return_lines input.now) }
{
    for place in 0..input.len() {
        if is_lone(input, place) {
            let words = b"look line ends with a carriage return alone";
            return push_place(text, input, words, place);
        }
    }
    Ok(())
}

/// Whether a carriage return is at this place, and no line feed after it.
fn is_lone(text: &[u8], place: usize) -> bool
    requires { place < length text.now }
    ensures { result ≡ is_lone text.now place }
{
    text[place] == b'\r' && !is_feed(text, place + 1)
}

/// Whether a line feed is at this place.
fn is_feed(text: &[u8], place: usize) -> bool
    ensures { result ≡ slice_index text.now place == 10 }
{
    place < text.len() && text[place] == b'\n'
}

/// A line with the line and the column of a place.
fn push_place(text: &mut Text, input: &[u8], words: &[u8], place: usize) -> Result<(), NoMemory>
    ensures { OnOk result (text.new ≡ text.old ++ place_line input.now words.now [] place) }
{
    let mark = mark_of(input, start(input), place);
    text.push_place_line(words, &[], mark)
}
