// The cells of the table of votes: amounts, and votes with states.
ghost use Rattle.std.specs.Prelude.{◌≡◌, ◌<◌, ◌≤◌, length};
ghost use Rattle.plain_ballots.specs.declared.limits.TheConstants.{MOST_CANDIDATES};
ghost use Rattle.meek_rule.specs.Row.{HasRoomFor};
ghost use Rattle.page_tree.specs.Print.{printed};
ghost use Rattle.sheet_page.specs.Prints.{Prints};
ghost use Rattle.sheet_page.specs.RoundEnds.{settled};
ghost use Rattle.sheet_page.specs.RoundTable.{amount_cell, figure_cell, standing_cell, vote_cell};

use crate::cell::{Cell, amount_text};
use crate::digits::{main_digits, other_digits};
use crate::pen::Pen;
use crate::piece::Piece;
use crate::values::state_word;
use byte_edge::Sink;
use candidate_roll::States;
use fixed_place::Amount;
use meek_rule::Row;

/// A candidate's vote in the last iteration of a round, and what it is after it.
pub(crate) fn write_vote<const P: usize, K: Sink>(
    pen: &mut Pen<'_, P, K>,
    row: &Row<P>,
    behind: &States,
    p: usize,
)
    requires room { HasRoomFor (length row.now.states) row.now }
    requires few { length row.now.states ≤ MOST_CANDIDATES }
    requires states { length behind.now ≡ length row.now.states }
    requires place { p < length row.now.states }
    ensures { Prints K.Sink pen.old pen.new (printed (vote_cell P (settled row.now behind.now) p)) }
{
    let text = amount_text(*row.votes.get(p));
    let state = state_word(*behind.get(p));
    write_standing(
        pen,
        main_digits::<P>(text.bytes()),
        other_digits::<P>(text.bytes()),
        state,
    );
}

/// An amount as a cell.
pub(crate) fn write_amount<const P: usize, K: Sink>(pen: &mut Pen<'_, P, K>, amount: Amount<P>)
    ensures { Prints K.Sink pen.old pen.new (printed (amount_cell P amount.entry)) }
{
    let text = amount_text(amount);
    write_figure(
        pen,
        main_digits::<P>(text.bytes()),
        other_digits::<P>(text.bytes()),
    );
}

/// Digits as a cell, those after the first places small.
fn write_figure<'x, const P: usize, K: Sink>(
    pen: &mut Pen<'_, P, K>,
    main: &'x [u8],
    other: &'x [u8],
)
    ensures { Prints K.Sink pen.old pen.new (printed (figure_cell main.now other.now)) }
{
    pen.write(&[
        Piece::Start(b"td"),
        Piece::Text(Cell::Bytes(main)),
        Piece::Start(b"small"),
        Piece::Text(Cell::Bytes(other)),
        Piece::End(b"small"),
        Piece::End(b"td"),
    ]);
}

/// Votes, and a state.
fn write_standing<'x, const P: usize, K: Sink>(
    pen: &mut Pen<'_, P, K>,
    main: &'x [u8],
    other: &'x [u8],
    state: &'x [u8],
)
    ensures { Prints K.Sink pen.old pen.new (printed (standing_cell main.now other.now state.now)) }
{
    pen.write(&[
        Piece::Start(b"td"),
        Piece::Text(Cell::Bytes(main)),
        Piece::Start(b"small"),
        Piece::Text(Cell::Bytes(other)),
        Piece::End(b"small"),
        Piece::Text(Cell::Bytes(b" ")),
        Piece::Start(b"em"),
        Piece::Text(Cell::Bytes(state)),
        Piece::End(b"em"),
        Piece::End(b"td"),
    ]);
}
