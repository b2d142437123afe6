// The picture of a round: its votes as bars, and its quota as a line.
ghost use Rattle.std.specs.Prelude.{◌≡◌, ◌≤◌, codes, length};
ghost use Rattle.plain_ballots.specs.declared.limits.TheConstants.{MOST_CANDIDATES};
ghost use Rattle.meek_rule.specs.Row.{HasRoomFor};
ghost use Rattle.page_tree.specs.Print.{opening, printed};
ghost use Rattle.sheet_reader.specs.Form.{IsPrintable};
ghost use Rattle.sheet_minutes.specs.Rounds.{left_over};
ghost use Rattle.sheet_page.specs.Bars.{bars_of};
ghost use Rattle.sheet_page.specs.Picture.{amounts_of, amounts_text, attributes_of, picture, picture_attributes, picture_title, quota_line, rest_part, rest_text, round_picture, scaled, view_box};
ghost use Rattle.sheet_page.specs.RoundEnds.{settled};
ghost use Rattle.sheet_page.specs.Prints.{Prints};

use crate::bars::write_bars;
use crate::cell::{Cell, units_text};
use crate::pen::Pen;
use crate::piece::Piece;
use crate::ranks::{bars_of, is_nothing, rest_count, rest_votes};
use crate::widths::scaled;
use byte_edge::Sink;
use candidate_roll::States;
use fixed_place::Amount;
use line_text::Line;
use meek_rule::Row;
use sheet_minutes::left_over;
use sheet_reader::SheetValuesAt;

/// Writes the quota and the picture of a round, by its last iteration and the states after it; `full`
/// units have the whole width.
pub(crate) fn write_round_picture<const P: usize, K: Sink>(
    pen: &mut Pen<'_, P, K>,
    values: &SheetValuesAt<P>,
    full: u64,
    row: &Row<P>,
    behind: &States,
)
    requires printable { IsPrintable P values.now }
    requires room { HasRoomFor (length values.now.names) row.now }
    requires states { length behind.now ≡ length values.now.names }
    ensures { Prints K.Sink pen.old pen.new
        (printed (round_picture P values.now full (settled row.now behind.now))) }
{
    write_amounts(pen, values, row);
    write_picture(pen, values, full, row, behind);
}

/// What is said of the amounts of a round.
fn write_amounts<const P: usize, K: Sink>(
    pen: &mut Pen<'_, P, K>,
    values: &SheetValuesAt<P>,
    row: &Row<P>,
)
    requires printable { IsPrintable P values.now }
    requires room { HasRoomFor (length values.now.names) row.now }
    ensures { Prints K.Sink pen.old pen.new (printed (amounts_of P values.now.ballots row.now)) }
{
    pen.open(b"p");
    write_quota_and_left(pen, values, row);
    write_rest(pen, row);
    pen.close(b"p");
}

/// The quota of a round, and the votes on no candidate.
fn write_quota_and_left<const P: usize, K: Sink>(
    pen: &mut Pen<'_, P, K>,
    values: &SheetValuesAt<P>,
    row: &Row<P>,
)
    requires { IsPrintable P values.now }
    ensures { Prints K.Sink pen.old pen.new
        (printed (amounts_text P row.now.quota (left_over P values.now.ballots row.now))) }
{
    let left = left_over(values.ballots, row.total);
    write_amounts_text(pen, row.quota, left);
}

/// Both amounts as a sentence.
fn write_amounts_text<const P: usize, K: Sink>(
    pen: &mut Pen<'_, P, K>,
    quota: Amount<P>,
    left: Amount<P>,
)
    ensures { Prints K.Sink pen.old pen.new (printed (amounts_text P quota.entry left.entry)) }
{
    pen.write(&[
        Piece::Text(Cell::Bytes(b"Quota ")),
        Piece::Text(Cell::Amount(quota)),
        Piece::Text(Cell::Bytes(b": the broken line. On no candidate: ")),
        Piece::Text(Cell::Amount(left)),
        Piece::Text(Cell::Bytes(b".")),
    ]);
}

/// The picture alone; `full` units have its whole width.
fn write_picture<const P: usize, K: Sink>(
    pen: &mut Pen<'_, P, K>,
    values: &SheetValuesAt<P>,
    full: u64,
    row: &Row<P>,
    behind: &States,
)
    requires printable { IsPrintable P values.now }
    requires room { HasRoomFor (length values.now.names) row.now }
    requires states { length behind.now ≡ length values.now.names }
    ensures { Prints K.Sink pen.old pen.new
        (printed (picture P values.now full (settled row.now behind.now))) }
{
    write_start(pen, row);
    write_title(pen, row.round);
    write_bars(pen, values, full, row, behind);
    write_quota(pen, full, row);
    pen.close(b"svg");
}

/// The start of the picture, with room for its bars.
fn write_start<const P: usize, K: Sink>(pen: &mut Pen<'_, P, K>, row: &Row<P>)
    requires room { HasRoomFor (length row.now.states) row.now }
    ensures { Prints K.Sink pen.old pen.new
        (opening (codes "svg") (picture_attributes (bars_of row.now))) }
{
    let view = view_box(bars_of(row));
    write_start_of(pen, view.bytes());
}

/// The part of the plane that is seen, with room for so many bars.
#[tactic(auto, using(line_text::proofs::Lengths::lengths))]
fn view_box(bars: usize) -> Line
    requires { bars ≤ MOST_CANDIDATES }
    ensures { result ≡ view_box bars }
{
    let mut line = Line::new();
    line.push_bytes(b"0 0 400 ");
    line.push_count(bars as u64 * 36);
    line
}

/// The start of a picture that shows this part of the plane.
fn write_start_of<const P: usize, K: Sink>(pen: &mut Pen<'_, P, K>, view: &[u8])
    ensures { Prints K.Sink pen.old pen.new (opening (codes "svg") (attributes_of view.now)) }
{
    pen.write(&[
        Piece::Begin(b"svg"),
        Piece::With(b"role", Cell::Bytes(b"img")),
        Piece::With(b"viewBox", Cell::Bytes(view)),
        Piece::Within,
    ]);
}

/// What is told to who doesn't see the picture.
fn write_title<const P: usize, K: Sink>(pen: &mut Pen<'_, P, K>, round: u32)
    ensures { Prints K.Sink pen.old pen.new (printed (picture_title round)) }
{
    pen.write(&[
        Piece::Start(b"title"),
        Piece::Text(Cell::Bytes(b"Votes at the end of round ")),
        Piece::Text(Cell::Count(round as u64)),
        Piece::Text(Cell::Bytes(
            b": a bar for each candidate who stands in it, of more than 24 for those with the most votes, and the quota as a line. The table above has the numbers.",
        )),
        Piece::End(b"title"),
    ]);
}

/// The quota of a round as a line; `full` units have the whole width.
fn write_quota<const P: usize, K: Sink>(pen: &mut Pen<'_, P, K>, full: u64, row: &Row<P>)
    requires room { HasRoomFor (length row.now.states) row.now }
    ensures { Prints K.Sink pen.old pen.new
        (printed (quota_line (scaled full row.now.quota) (bars_of row.now))) }
{
    write_quota_line(pen, scaled(full, row.quota), bars_of(row));
}

/// A line down over so many bars, so many points from the left.
fn write_quota_line<const P: usize, K: Sink>(pen: &mut Pen<'_, P, K>, x: u64, bars: usize)
    requires few { bars ≤ MOST_CANDIDATES }
    ensures { Prints K.Sink pen.old pen.new (printed (quota_line x bars)) }
{
    pen.write(&[
        Piece::Begin(b"line"),
        Piece::With(b"x1", Cell::Count(x)),
        Piece::With(b"x2", Cell::Count(x)),
        Piece::With(b"y1", Cell::Bytes(b"20")),
        Piece::With(b"y2", Cell::Count(bars as u64 * 36)),
        Piece::With(b"stroke-dasharray", Cell::Bytes(b"16 20")),
        Piece::Within,
        Piece::End(b"line"),
    ]);
}

/// How many stand and have no bar, and their votes together, if there are any.
fn write_rest<const P: usize, K: Sink>(pen: &mut Pen<'_, P, K>, row: &Row<P>)
    requires room { HasRoomFor (length row.now.states) row.now }
    requires few { length row.now.votes ≤ MOST_CANDIDATES }
    ensures { Prints K.Sink pen.old pen.new (printed (rest_part P row.now)) }
{
    let count = rest_count(row) as u64;
    if is_nothing(count) {
        return;
    }
    // A quota has from 6 to 9 places.
    let _quota = row.quota.units();
    let votes = units_text::<P>(rest_votes(row));
    write_rest_text(pen, count, votes.bytes());
}

fn write_rest_text<const P: usize, K: Sink>(pen: &mut Pen<'_, P, K>, count: u64, votes: &[u8])
    ensures { Prints K.Sink pen.old pen.new (printed (rest_text count votes.now)) }
{
    pen.write(&[
        Piece::Text(Cell::Bytes(b" With fewer votes and without a bar: ")),
        Piece::Text(Cell::Count(count)),
        Piece::Text(Cell::Bytes(b". Their votes together: ")),
        Piece::Text(Cell::Bytes(votes)),
        Piece::Text(Cell::Bytes(b".")),
    ]);
}
