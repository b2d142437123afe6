// Parts of sentences, as a voice writes them.
ghost use Rattle.std.specs.Prelude.{◌≡◌, ◌+◌, ◌++◌, ◌∷◌, ◌<◌, ◌≤◌, [], codes, length, decimal, map};
ghost use Rattle.plain_ballots.specs.declared.limits.TheConstants.{MOST_CANDIDATES};
ghost use Rattle.fixed_place.specs.Text.{text_of};
ghost use Rattle.meek_rule.specs.Row.{HasRoomFor};
ghost use Rattle.piece_text.specs.Writing.{Writes};
ghost use Rattle.sheet_words.specs.Manner.{said, told};
ghost use Rattle.sheet_words.specs.Parts.{part_text};
ghost use Rattle.sheet_words.specs.Phrases.{called, for_one_or_more, listing, member, numbered_name, separator, with_votes};

use crate::Voice;
use crate::group::Group;
use crate::members::{is_in, members_from};
use crate::part::Part;
use byte_edge::{Failed, Sink};
use fixed_place::Amount;
use line_text::Line;
use meek_rule::Row;
use sheet_reader::SheetValuesAt;

/// Writes a sentence of these texts.
pub(crate) fn write_parts<V: Voice, K: Sink>(
    voice: &V,
    parts: &[Part<'_>],
    sink: &mut K,
) -> Result<(), Failed>
    ensures { Writes K.written K.faults sink.old sink.new
        (told V.manner (map part_text parts.now)) result }
{
    voice.begin(sink)?;
    say_parts(voice, parts, sink)?;
    voice.end(sink)
}

/// Says some texts.
pub(crate) fn say_parts<V: Voice, K: Sink>(
    voice: &V,
    parts: &[Part<'_>],
    sink: &mut K,
) -> Result<(), Failed>
    ensures { Writes K.written K.faults sink.old sink.new
        (said V.manner (map part_text parts.now)) result }
{
    for part in parts {
        say_part(voice, part, sink)?;
    }
    Ok(())
}

fn say_part<V: Voice, K: Sink>(voice: &V, part: &Part<'_>, sink: &mut K) -> Result<(), Failed>
    ensures { Writes K.written K.faults sink.old sink.new (V.manner.voiced (part_text part.now)) result }
{
    match part {
        Part::Words(bytes) => voice.say(*bytes, sink),
        Part::Number(n) => voice.say(count_text(*n).bytes(), sink),
    }
}

#[tactic(auto, using(line_text::proofs::Lengths::lengths))]
fn count_text(n: u64) -> Line
    ensures { result ≡ decimal n }
{
    let mut line = Line::new();
    line.push_count(n);
    line
}

/// Votes to the last digit.
#[tactic(auto, using(line_text::proofs::Lengths::lengths))]
pub(crate) fn votes_text<const P: usize>(a: Amount<P>) -> Line
    ensures { result ≡ text_of P a.entry }
{
    let _units = a.units();
    let mut line = Line::new();
    line.push_amount(a);
    line
}

/// Says a candidate: its name, and its number in brackets.
pub(crate) fn say_called<const P: usize, V: Voice, K: Sink>(
    voice: &V,
    values: &SheetValuesAt<P>,
    p: usize,
    sink: &mut K,
) -> Result<(), Failed>
    requires place { p < length values.now.names }
    requires few { length values.now.names ≤ MOST_CANDIDATES }
    ensures { Writes K.written K.faults sink.old sink.new
        (said V.manner (called values.now p)) result }
{
    let name = values.names.get(p).bytes();
    say_name(voice, name, p as u64 + 1, sink)
}

/// Says a group by rising number, each with its votes.
pub(crate) fn say_listing<const P: usize, V: Voice, K: Sink>(
    voice: &V,
    values: &SheetValuesAt<P>,
    row: &Row<P>,
    group: Group,
    sink: &mut K,
) -> Result<(), Failed>
    requires room { HasRoomFor (length values.now.names) row.now }
    requires few { length values.now.names ≤ MOST_CANDIDATES }
    ensures { Writes K.written K.faults sink.old sink.new
        (said V.manner (listing P values.now row.now group)) result }
{
    for p in 0..row.states.len() {
        say_member(voice, values, row, group, p, sink)?;
    }
    Ok(())
}

/// Says the candidate at a place, if it is of the group, with what is after it.
fn say_member<const P: usize, V: Voice, K: Sink>(
    voice: &V,
    values: &SheetValuesAt<P>,
    row: &Row<P>,
    group: Group,
    p: usize,
    sink: &mut K,
) -> Result<(), Failed>
    requires room { HasRoomFor (length values.now.names) row.now }
    requires few { length values.now.names ≤ MOST_CANDIDATES }
    requires place { p < length values.now.names }
    ensures { Writes K.written K.faults sink.old sink.new
        (said V.manner (member P values.now row.now group p)) result }
{
    if !is_in(row, group, p) {
        return Ok(());
    }
    let still = members_from(row, group, p + 1);
    say_called(voice, values, p, sink)?;
    say_votes(voice, *row.votes.get(p), separator(still), sink)
}

fn say_name<V: Voice, K: Sink>(
    voice: &V,
    name: &[u8],
    number: u64,
    sink: &mut K,
) -> Result<(), Failed>
    ensures { Writes K.written K.faults sink.old sink.new
        (said V.manner (numbered_name name.now number)) result }
{
    say_parts(
        voice,
        &[
            Part::Words(name),
            Part::Words(b" ("),
            Part::Number(number),
            Part::Words(b")"),
        ],
        sink,
    )
}

/// Says a candidate's votes, and what is after them.
fn say_votes<const P: usize, V: Voice, K: Sink>(
    voice: &V,
    votes: Amount<P>,
    behind: &[u8],
    sink: &mut K,
) -> Result<(), Failed>
    ensures { Writes K.written K.faults sink.old sink.new
        (said V.manner (with_votes P votes.entry behind.now)) result }
{
    let text = votes_text(votes);
    say_with_votes(voice, text.bytes(), behind, sink)
}

fn say_with_votes<'x, V: Voice, K: Sink>(
    voice: &V,
    votes: &'x [u8],
    behind: &'x [u8],
    sink: &mut K,
) -> Result<(), Failed>
    ensures { Writes K.written K.faults sink.old sink.new
        (said V.manner (codes " with " ∷ votes.now ∷ codes " votes" ∷ behind.now ∷ [])) result }
{
    say_parts(
        voice,
        &[
            Part::Words(b" with "),
            Part::Words(votes),
            Part::Words(b" votes"),
            Part::Words(behind),
        ],
        sink,
    )
}

/// What is after a candidate of a list with so many still to come.
fn separator(still: usize) -> &'static [u8]
    ensures { result.now ≡ separator still }
{
    match still {
        0 => b"",
        1 => b" and ",
        _ => b", ",
    }
}

/// Words for one, or for several.
pub(crate) fn for_one_or_more<'x>(one: &'x [u8], more: &'x [u8], count: usize) -> &'x [u8]
    ensures { result.now ≡ for_one_or_more one.now more.now count }
{
    if count == 1 { one } else { more }
}
