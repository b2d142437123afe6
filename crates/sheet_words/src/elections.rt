// The sentences on who is elected.
ghost use Rattle.std.specs.Prelude.{◌≡◌, ◌≤◌, length};
ghost use Rattle.plain_ballots.specs.declared.limits.TheConstants.{MOST_CANDIDATES};
ghost use Rattle.meek_rule.specs.Row.{HasRoomFor};
ghost use Rattle.piece_text.specs.Writing.{Writes};
ghost use Rattle.sheet_words.specs.Manner.{said};
ghost use Rattle.sheet_words.specs.Sentences.{arrival, at_quota, choice, election, reason, seats_for_them};

use crate::Voice;
use crate::group::Group;
use crate::members::{elected_count, members};
use crate::part::Part;
use crate::saying::{for_one_or_more, say_listing, say_parts, votes_text};
use byte_edge::{Failed, Sink};
use fixed_place::Amount;
use meek_rule::Row;
use sheet_reader::SheetValuesAt;

pub(crate) fn say_election<const P: usize, V: Voice, K: Sink>(
    voice: &V,
    values: &SheetValuesAt<P>,
    row: &Row<P>,
    sink: &mut K,
) -> Result<(), Failed>
    requires room { HasRoomFor (length values.now.names) row.now }
    requires few { length values.now.names ≤ MOST_CANDIDATES }
    ensures { Writes K.written K.faults sink.old sink.new (said V.manner (election P values.now row.now)) result }
{
    say_listing(voice, values, row, Group::Elected, sink)?;
    let winners = members(row, Group::Elected);
    let seated = for_one_or_more(b" and is elected.", b" and are elected.", winners);
    say_quota(voice, winners, row.quota, seated, sink)
}

pub(crate) fn say_arrival<const P: usize, V: Voice, K: Sink>(
    voice: &V,
    values: &SheetValuesAt<P>,
    row: &Row<P>,
    sink: &mut K,
) -> Result<(), Failed>
    requires room { HasRoomFor (length values.now.names) row.now }
    requires few { length values.now.names ≤ MOST_CANDIDATES }
    ensures { Writes K.written K.faults sink.old sink.new (said V.manner (arrival P values.now row.now)) result }
{
    say_listing(voice, values, row, Group::Reached, sink)?;
    say_quota(voice, members(row, Group::Reached), row.quota, b".", sink)
}

/// Says that so many reached the quota, and what is after it.
fn say_quota<const P: usize, V: Voice, K: Sink>(
    voice: &V,
    count: usize,
    quota: Amount<P>,
    behind: &[u8],
    sink: &mut K,
) -> Result<(), Failed>
    ensures { Writes K.written K.faults sink.old sink.new
        (said V.manner (at_quota P count quota.entry behind.now)) result }
{
    let reach = for_one_or_more(b" reaches the quota of ", b" reach the quota of ", count);
    let votes = votes_text(quota);
    say_parts(
        voice,
        &[
            Part::Words(reach),
            Part::Words(votes.bytes()),
            Part::Words(behind),
        ],
        sink,
    )
}

pub(crate) fn say_choice<const P: usize, V: Voice, K: Sink>(
    voice: &V,
    values: &SheetValuesAt<P>,
    row: &Row<P>,
    sink: &mut K,
) -> Result<(), Failed>
    requires room { HasRoomFor (length values.now.names) row.now }
    requires few { length values.now.names ≤ MOST_CANDIDATES }
    ensures { Writes K.written K.faults sink.old sink.new (said V.manner (choice P values.now row.now)) result }
{
    say_seats(voice, values, row, sink)?;
    say_listing(voice, values, row, Group::Elected, sink)?;
    let seated = for_one_or_more(
        b" is elected",
        b" are elected",
        members(row, Group::Elected),
    );
    say_parts(
        voice,
        &[Part::Words(seated), Part::Words(reason(row))],
        sink,
    )
}

/// Says how many seats are left before an iteration.
fn say_seats<const P: usize, V: Voice, K: Sink>(
    voice: &V,
    values: &SheetValuesAt<P>,
    row: &Row<P>,
    sink: &mut K,
) -> Result<(), Failed>
    requires { length row.now.states ≤ MOST_CANDIDATES }
    ensures { Writes K.written K.faults sink.old sink.new (said V.manner (seats_for_them values.now row.now)) result }
{
    let left = values.seats.saturating_sub(elected_count(&row.states));
    say_parts(
        voice,
        &[
            Part::Words(b"Seats left for them: "),
            Part::Number(left as u64),
            Part::Words(b". "),
        ],
        sink,
    )
}

/// How those are chosen for whom there are seats.
fn reason<const P: usize>(row: &Row<P>) -> &'static [u8]
    requires { HasRoomFor (length row.now.states) row.now }
    ensures { result.now ≡ reason row.now }
{
    if members(row, Group::LeftByLot) == 0 {
        b": a greater vote comes first."
    } else {
        b": a greater vote comes first, and of equal votes the later in the lots."
    }
}
