// One field of a record.
ghost use Rattle.std.specs.Prelude.{◌≡◌, ◌<◌, ◌≤◌, length, slice_index, IfOk, IfErr};
ghost use Rattle.table_text.specs.Reading.{Front, Plain};
ghost use Rattle.table_text.specs.Reader.{IsParted, IsFieldAt, GoesOver, HasFlaw};

use crate::mark::{Mark, QUOTE, is_text, mark_at};
use crate::short::number_of;
use crate::{Cell, TextKind};

/// What is wrong with a field, and at which byte.
#[derive(Clone, Copy)]
pub(crate) struct Flaw {
    pub kind: TextKind,
    pub at: usize,
}

/// The field that begins at a place, whatever it is.
pub(crate) fn any_cell(bytes: &[u8], separator: u8, at: usize) -> Result<Cell, Flaw>
    requires { at ≤ length bytes.now }
    ensures field { IfOk result (IsFieldAt separator bytes.now at) }
    ensures flaw { IfErr result (HasFlaw separator bytes.now Front at) }
{
    match field_stop(bytes, separator, at) {
        Ok(stop) => Ok(Cell {
            at,
            stop,
            number: number_of(&bytes[at..stop]),
        }),
        Err(flaw) => Err(flaw),
    }
}

// The place after the field that begins at a place.
#[inline]
fn field_stop(bytes: &[u8], separator: u8, at: usize) -> Result<usize, Flaw>
    requires { at ≤ length bytes.now }
    ensures after { IfOk result (λ stop. at ≤ stop) }
    ensures inside { IfOk result (λ stop. stop ≤ length bytes.now) }
    ensures parted { IfOk result (IsParted separator bytes.now) }
    ensures over { IfOk result (λ stop. GoesOver separator bytes.now Front at stop Plain) }
    ensures flaw { IfErr result (HasFlaw separator bytes.now Front at) }
{
    if at < bytes.len() && bytes[at] == QUOTE {
        quoted_stop(bytes, separator, at)
    } else {
        plain_stop(bytes, separator, at)
    }
}

// The same of a field that begins with no quote.
#[inline]
fn plain_stop(bytes: &[u8], separator: u8, at: usize) -> Result<usize, Flaw>
    requires { at ≤ length bytes.now }
    ensures after { IfOk result (λ stop. at ≤ stop) }
    ensures inside { IfOk result (λ stop. stop ≤ length bytes.now) }
    ensures parted { IfOk result (IsParted separator bytes.now) }
    ensures over { IfOk result (λ stop. GoesOver separator bytes.now Plain at stop Plain) }
    ensures flaw { IfErr result (HasFlaw separator bytes.now Plain at) }
{
    let mut stop = at;
    while stop < bytes.len() {
        match mark_at(bytes, separator, stop) {
            Mark::Inner => stop += 1,
            Mark::Wrong => return Err(flawed(TextKind::BadByte, stop)),
            Mark::Quote => return Err(flawed(TextKind::BadQuote, stop)),
            _ => return Ok(stop),
        }
    }
    Ok(stop)
}

// The same of a field that begins with a quote.
fn quoted_stop(bytes: &[u8], separator: u8, at: usize) -> Result<usize, Flaw>
    requires inside { at < length bytes.now }
    requires quote { slice_index bytes.now at ≡ 34 }
    ensures after { IfOk result (λ stop. at ≤ stop) }
    ensures inside { IfOk result (λ stop. stop ≤ length bytes.now) }
    ensures parted { IfOk result (IsParted separator bytes.now) }
    ensures over { IfOk result (λ stop. GoesOver separator bytes.now Front at stop Plain) }
    ensures flaw { IfErr result (HasFlaw separator bytes.now Front at) }
{
    let mut stop = at + 1;
    let mut is_behind_quote = false;
    while stop < bytes.len() {
        if is_behind_quote {
            match mark_at(bytes, separator, stop) {
                Mark::Quote => is_behind_quote = false,
                Mark::Inner => return Err(flawed(TextKind::BadQuote, stop)),
                Mark::Wrong => return Err(flawed(TextKind::BadByte, stop)),
                _ => return Ok(stop),
            }
        } else if bytes[stop] == QUOTE {
            is_behind_quote = true;
        } else if !is_text(bytes[stop]) {
            return Err(flawed(TextKind::BadByte, stop));
        }
        stop += 1;
    }
    if is_behind_quote {
        Ok(stop)
    } else {
        Err(flawed(TextKind::Ended, stop))
    }
}

fn flawed(kind: TextKind, at: usize) -> Flaw
    ensures { result ≡ record { kind = kind; at = at } }
{
    Flaw { kind, at }
}
