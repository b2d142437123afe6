// The lines of what a count promises.
ghost use Rattle.std.specs.Prelude.{◌≡◌, ◌+◌, ◌^◌, ◌<◌, ◌≤◌, ◌++◌, ◌∷◌, All, IfOk, OnOk, decimal, length};
ghost use Rattle.fixed_place.specs.Rounding.{scale};
ghost use Rattle.meek_rule.specs.Places.{each_place};
ghost use Rattle.meek_rule.specs.Row.{HasRoomFor};
ghost use Rattle.sheet_text.specs.Lines.{ended, listed, number_line};
ghost use Rattle.sheet_reader.specs.Form.{IsPrintable, IsPrintableRow};
ghost use Rattle.count_promise.specs.Left.{first_defeat};
ghost use Rattle.count_promise.specs.Lots.{is_in};
ghost use Rattle.count_promise.specs.Lines.{amount_line, defeat_lots, election_lots, further_text, greatest_line, lots_of, lots_text, not_promised_line, promise_lines, promise_text, whose_quota};

use crate::lots::{defeat_is_by_lot, election_is_by_lot};
use crate::peaks::peaks_of;
use crate::text::Text;
use crate::{Group, decides_any, defeated, first_defeat, is_in, promised_quota};
use meek_rule::Row;
use sheet_reader::SheetValues;
use std::alloc::{AllocError, Global};

const VOTE: u64 = 1_000_000_000;

/// What the sheet of these values promises, line by line.
pub(crate) fn promise_of(alloc: Global, values: &SheetValues) -> Result<Text, AllocError>
    requires { IsPrintable 9 values.now }
    ensures { IfOk result (λ text. text ≡ promise_text values.now) }
{
    let mut text = Text::new(alloc);
    push_lots(&mut text, values.rows.items())?;
    push_further(&mut text, values)?;
    Ok(text)
}

/// The lines after those of the lots.
fn push_further(text: &mut Text, values: &SheetValues) -> Result<(), AllocError>
    requires { IsPrintable 9 values.now }
    ensures { OnOk result (text.new ≡ text.old ++ further_text values.now) }
{
    let rows = values.rows.items();
    let peaks = peaks_of(rows, values.names.len());
    let quota = promised_quota(values);
    push_greatest(text, rows, peaks.surplus)?;
    push_amount(text, b"seats lack at most ", peaks.lack, b"")?;
    push_amount(text, b"quota ", quota, whose_quota(rows))?;
    push_promise(text, rows, quota, peaks.left)
}

/// Of which ballots the quota is.
fn whose_quota(rows: &[Row<9>]) -> &'static [u8]
    ensures { result.now ≡ whose_quota rows.now }
{
    match rows {
        [] => b" of all ballots",
        _ => b" of the ballots that rank somebody who runs",
    }
}

/// The lines of what lots decided, or the line that they decided nothing.
fn push_lots(text: &mut Text, rows: &[Row<9>]) -> Result<(), AllocError>
    requires { All (λ row. HasRoomFor (length row.states) row) rows.now }
    ensures { OnOk result (text.new ≡ text.old ++ lots_text rows.now) }
{
    if !decides_any(rows) {
        return text.push_bytes(b"no lot decided anything\n");
    }
    for row in rows {
        push_lots_of(text, row)?;
    }
    Ok(())
}

/// The lines of what lots decided in an iteration.
fn push_lots_of(text: &mut Text, row: &Row<9>) -> Result<(), AllocError>
    requires room { HasRoomFor (length row.now.states) row.now }
    ensures { OnOk result (text.new ≡ text.old ++ lots_of row.now) }
{
    push_lot_defeat(text, row)?;
    push_lot_election(text, row)
}

fn push_lot_defeat(text: &mut Text, row: &Row<9>) -> Result<(), AllocError>
    requires room { HasRoomFor (length row.now.states) row.now }
    ensures { OnOk result (text.new ≡ text.old ++ defeat_lots row.now) }
{
    if !defeat_is_by_lot(row) {
        return Ok(());
    }
    push_number(text, row)?;
    text.push_bytes(b" defeats ")?;
    text.push_count(defeated(row.step) as u64)?;
    text.push_bytes(b" by lot of")?;
    push_group(text, row, Group::Tied)?;
    text.push_bytes(b"\n")
}

fn push_lot_election(text: &mut Text, row: &Row<9>) -> Result<(), AllocError>
    requires room { HasRoomFor (length row.now.states) row.now }
    ensures { OnOk result (text.new ≡ text.old ++ election_lots row.now) }
{
    if !election_is_by_lot(row) {
        return Ok(());
    }
    push_number(text, row)?;
    text.push_bytes(b" elects")?;
    push_group(text, row, Group::Seated)?;
    text.push_bytes(b" and not")?;
    push_group(text, row, Group::Left)?;
    text.push_bytes(b" by lot\n")
}

/// Which iteration of which round it is.
fn push_number(text: &mut Text, row: &Row<9>) -> Result<(), AllocError>
    ensures { OnOk result (text.new ≡ text.old ++ number_line row.now) }
{
    text.push_bytes(b"round ")?;
    text.push_count(row.round as u64)?;
    text.push_bytes(b" iteration ")?;
    text.push_count(row.iteration)
}

/// The numbers of a group, each after a space.
fn push_group(text: &mut Text, row: &Row<9>, group: Group) -> Result<(), AllocError>
    requires room { HasRoomFor (length row.now.states) row.now }
    ensures { OnOk result
        (text.new ≡ text.old ++ listed 1 (each_place (length row.now.states) (is_in row.now group))) }
{
    for p in 0..row.states.len() {
        if is_in(row, group, p) {
            push_candidate(text, p)?;
        }
    }
    Ok(())
}

fn push_candidate(text: &mut Text, p: usize) -> Result<(), AllocError>
    requires { p + 1 < 2 ^ 64 }
    ensures { OnOk result (text.new ≡ text.old ++ 32 ∷ decimal (p + 1)) }
{
    text.push_bytes(b" ")?;
    text.push_count(p as u64 + 1)
}

/// The line of the defeat with the greatest surplus, the first that has it, or the line that there was
/// none.
fn push_greatest(text: &mut Text, rows: &[Row<9>], greatest: u64) -> Result<(), AllocError>
    ensures { OnOk result (text.new ≡ text.old ++ ended (greatest_line (first_defeat greatest rows.now))) }
{
    match first_defeat(rows, greatest) {
        Some(row) => push_greatest_of(text, row),
        None => text.push_bytes(b"nobody was defeated in an iteration\n"),
    }
}

fn push_greatest_of(text: &mut Text, row: &Row<9>) -> Result<(), AllocError>
    ensures { OnOk result (text.new ≡ text.old ++ ended (greatest_line (Some row.now))) }
{
    text.push_bytes(b"greatest surplus at a defeat ")?;
    text.push_units(surplus_of(row))?;
    text.push_bytes(b" ")?;
    push_number(text, row)?;
    text.push_bytes(b" candidate ")?;
    text.push_count(defeated(row.step) as u64)?;
    text.push_bytes(b"\n")
}

/// The surplus of an iteration, in units.
fn surplus_of(row: &Row<9>) -> u128
    ensures value { result ≡ row.now.surplus }
    ensures bound { result < 10 ^ 27 }
{
    row.surplus.units() as u128
}

/// A line of an amount between words.
fn push_amount(text: &mut Text, words: &[u8], units: u128, more: &[u8]) -> Result<(), AllocError>
    requires { units < 10 ^ 27 }
    ensures { OnOk result (text.new ≡ text.old ++ ended (amount_line words.now units more.now)) }
{
    text.push_bytes(words)?;
    text.push_units(units)?;
    text.push_bytes(more)?;
    text.push_bytes(b"\n")
}

/// The lines of the promise, or of the first defeat for which there is none.
fn push_promise(text: &mut Text, rows: &[Row<9>], quota: u128, over: u128) -> Result<(), AllocError>
    requires quota { quota < 10 ^ 27 }
    requires over { over < 10 ^ 27 }
    ensures { OnOk result
        (text.new ≡ text.old ++ promise_lines (first_defeat (scale 9) rows.now) quota over) }
{
    match first_defeat(rows, VOTE) {
        Some(row) => push_none(text, row, quota),
        None => push_bound(text, quota, over),
    }
}

/// The line of the promise, and what it says to voters.
fn push_bound(text: &mut Text, quota: u128, over: u128) -> Result<(), AllocError>
    requires quota { quota < 10 ^ 27 }
    requires over { over < 10 ^ 27 }
    ensures { OnOk result (text.new ≡ text.old ++ promise_lines None quota over) }
{
    push_amount(text, b"proportional within ", over, b"")?;
    text.push_bytes(
        b"Any voters who rank the same candidates, in any order, above all others who run, and are at least k quotas of ",
    )?;
    text.push_units(quota)?;
    push_amount(
        text,
        b" votes and ",
        over,
        b" votes more, have k of these candidates elected, or all of these who run where they are fewer than k.",
    )
}

/// The line of a defeat for which nothing is promised, and what it means for voters.
fn push_none(text: &mut Text, row: &Row<9>, quota: u128) -> Result<(), AllocError>
    requires { quota < 10 ^ 27 }
    ensures { OnOk result (text.new ≡ text.old ++ promise_lines (Some row.now) quota 0) }
{
    push_not_promised(text, row)?;
    push_amount(
        text,
        b"So voters who rank the same candidates, in any order, above all others who run, may have fewer of these elected than they have quotas of ",
        quota,
        b" votes.",
    )
}

fn push_not_promised(text: &mut Text, row: &Row<9>) -> Result<(), AllocError>
    ensures { OnOk result (text.new ≡ text.old ++ ended (not_promised_line row.now)) }
{
    text.push_bytes(b"not promised: ")?;
    push_number(text, row)?;
    text.push_bytes(b" defeats ")?;
    text.push_count(defeated(row.step) as u64)?;
    text.push_bytes(b" while ")?;
    text.push_units(surplus_of(row))?;
    text.push_bytes(b" votes of surplus are not passed on")?;
    text.push_bytes(b"\n")
}
