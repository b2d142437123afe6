// A sheet as a table for spreadsheets.
ghost use Rattle.std.specs.Prelude.{◌≡◌, ◌<◌, ◌≤◌, length, map};
ghost use Rattle.std.specs.List.{flat_map};
ghost use Rattle.plain_ballots.specs.declared.limits.TheConstants.{MOST_CANDIDATES};
ghost use Rattle.csv_text.specs.Csv.{record_text};
ghost use Rattle.meek_rule.specs.Row.{HasRoomFor};
ghost use Rattle.piece_text.specs.Writing.{Writes};
ghost use Rattle.sheet_reader.specs.Form.{IsPrintable};
ghost use Rattle.sheet_page.specs.Csv.{csv_head, csv_of, csv_record, marked_csv_of, yes_or_no};
ghost use Rattle.sheet_page.specs.Prints.{Prints};
ghost use Rattle.sheet_page.specs.Values.{all_places};

use crate::cell::Cell;
use crate::pen::Pen;
use crate::values::{defeats, kept_of_one, state_word, step_word};
use byte_edge::{Failed, Sink};
use meek_rule::Row;
use piece_text::write_bytes;
use sheet_reader::SheetValuesAt;

/// Writes the values of a sheet as a table for spreadsheets: a head line, and a line for each candidate
/// of each iteration.
pub(crate) fn write_csv<const P: usize, K: Sink>(
    values: &SheetValuesAt<P>,
    sink: &mut K,
) -> Result<(), Failed>
    requires { IsPrintable P values.now }
    ensures { Writes K.written K.faults sink.old sink.new (csv_of P values.now) result }
{
    let mut pen = Pen::new(sink);
    write_head(&mut pen);
    for row in values.rows.items() {
        write_row(&mut pen, values, row);
    }
    pen.end()
}

/// Writes the same table after a byte order mark.
pub(crate) fn write_marked_csv<const P: usize, K: Sink>(
    values: &SheetValuesAt<P>,
    sink: &mut K,
) -> Result<(), Failed>
    requires { IsPrintable P values.now }
    ensures { Writes K.written K.faults sink.old sink.new (marked_csv_of P values.now) result }
{
    write_bytes(b"\xEF\xBB\xBF", sink)?;
    write_csv(values, sink)
}

/// The names of the columns.
fn write_head<const P: usize, K: Sink>(pen: &mut Pen<'_, P, K>)
    ensures { Prints K.Sink pen.old pen.new (record_text csv_head) }
{
    pen.record(
        &Cell::Bytes(b"round"),
        &[
            Cell::Bytes(b"iteration"),
            Cell::Bytes(b"candidate"),
            Cell::Bytes(b"name"),
            Cell::Bytes(b"outcome"),
            Cell::Bytes(b"state"),
            Cell::Bytes(b"keep"),
            Cell::Bytes(b"vote"),
            Cell::Bytes(b"elected"),
            Cell::Bytes(b"capped"),
            Cell::Bytes(b"tied"),
            Cell::Bytes(b"defeated"),
            Cell::Bytes(b"total"),
            Cell::Bytes(b"quota"),
            Cell::Bytes(b"surplus"),
            Cell::Bytes(b"step"),
        ],
    );
}

/// The candidates of an iteration.
fn write_row<const P: usize, K: Sink>(
    pen: &mut Pen<'_, P, K>,
    values: &SheetValuesAt<P>,
    row: &Row<P>,
)
    requires room { HasRoomFor (length values.now.names) row.now }
    requires outcomes { length values.now.last ≡ length values.now.names }
    requires few { length values.now.names ≤ MOST_CANDIDATES }
    ensures { Prints K.Sink pen.old pen.new
        (flat_map (λ p. record_text (csv_record P values.now row.now p)) (all_places (length values.now.names))) }
{
    for p in 0..values.names.len() {
        write_line(pen, values, row, p);
    }
}

/// The candidate at a place in an iteration.
fn write_line<const P: usize, K: Sink>(
    pen: &mut Pen<'_, P, K>,
    values: &SheetValuesAt<P>,
    row: &Row<P>,
    p: usize,
)
    requires room { HasRoomFor (length values.now.names) row.now }
    requires outcomes { length values.now.last ≡ length values.now.names }
    requires few { length values.now.names ≤ MOST_CANDIDATES }
    requires place { p < length values.now.names }
    ensures { Prints K.Sink pen.old pen.new (record_text (csv_record P values.now row.now p)) }
{
    let name = values.names.get(p).bytes();
    let outcome = state_word(*values.last.get(p));
    let state = state_word(*row.states.get(p));
    let keep = kept_of_one(*row.keeps.get(p));
    let elected = yes_or_no(*row.elected.get(p));
    let capped = yes_or_no(*row.capped.get(p));
    let tied = yes_or_no(*row.tied.get(p));
    let defeated = yes_or_no(defeats(row.step, p as u32 + 1));
    pen.record(
        &Cell::Count(row.round as u64),
        &[
            Cell::Count(row.iteration),
            Cell::Count(p as u64 + 1),
            Cell::Bytes(name),
            Cell::Bytes(outcome),
            Cell::Bytes(state),
            Cell::Amount(keep),
            Cell::Amount(*row.votes.get(p)),
            Cell::Bytes(elected),
            Cell::Bytes(capped),
            Cell::Bytes(tied),
            Cell::Bytes(defeated),
            Cell::Amount(row.total),
            Cell::Amount(row.quota),
            Cell::Amount(row.surplus),
            Cell::Bytes(step_word(row.step)),
        ],
    );
}

/// A mark as a spreadsheet shows it.
fn yes_or_no(mark: bool) -> &'static [u8]
    ensures { result.now ≡ yes_or_no mark }
{
    if mark { b"yes" } else { b"no" }
}
