// How a run differs from its case.
ghost use Rattle.std.specs.Prelude.{◌≡◌, ◌⊎◌, ◌↔◌, IsTrue, Some, None};
ghost use Rattle.std.specs.Process.{exit_status};

use crate::case::Case;
use byte_edge::MemorySink;
use std::process::ExitCode;
use std::{io, str};

/// What a run came to.
#[derive(Drop)]
pub(crate) struct Ran {
    pub(crate) code: ExitCode,
    /// With what was written.
    pub(crate) sink: MemorySink,
    /// How many calls the history of a day has; none where no day was run.
    pub(crate) calls: usize,
}

/// Whether a run wrote what its case says, and ended with the status that it says.
fn is_as_said(case: &Case<'_>, ran: &Ran) -> bool
    ensures { IsTrue result ↔ ((ran.now.sink.taken ≡ case.now.output.items)
        × (case.now.status ≡ Some (exit_status ran.now.code))) }
{
    let Some(status) = case.status else {
        return false;
    };
    ran.code == ExitCode::from(status) && ran.sink.bytes() == case.output.as_slice()
}

/// Whether a run has as many calls as its case says, where it says so.
fn has_the_calls(case: &Case<'_>, ran: &Ran) -> bool
    ensures { IsTrue result ↔ ((case.now.calls ≡ None) ⊎ (case.now.calls ≡ Some ran.now.calls)) }
{
    match case.calls {
        Some(calls) => calls == ran.calls,
        None => true,
    }
}

/// The bytes from the first that differs, and at most 80 of them.
fn from_difference<'a>(bytes: &'a [u8], at: usize) -> &'a [u8] {
    let behind = bytes.get(at..).unwrap_or(&[]);
    behind.get(..80).unwrap_or(behind)
}

/// At how many bytes from the front two texts differ.
fn difference(found: &[u8], wanted: &[u8]) -> usize {
    let mut at = 0usize;
    for (a, b) in found.iter().zip(wanted) {
        if a != b {
            return at;
        }
        at = at.saturating_add(1);
    }
    at
}

/// The number of the line, from 1, on which the byte after these is.
fn line_after(bytes: &[u8]) -> usize {
    let mut line = 1usize;
    for byte in bytes {
        if *byte == b'\n' {
            line = line.saturating_add(1);
        }
    }
    line
}

/// Says where the bytes of a run differ from those of its case, if they do.
fn tell_bytes(rt: &impl Print, case: &Case<'_>, ran: &Ran) -> io::Result<()> {
    let (found, wanted) = (ran.sink.bytes(), case.output.as_slice());
    if found == wanted {
        return Ok(());
    }
    let at = difference(found, wanted);
    let line = line_after(wanted.get(..at).unwrap_or(&[]));
    let found = str::from_utf8(from_difference(found, at));
    let wanted = str::from_utf8(from_difference(wanted, at));
    print!(rt; ", line {line} byte {at} {found:?} for {wanted:?}")
}

/// Says how a run differs from its case.
fn tell_difference(rt: &impl Print, file: &str, case: &Case<'_>, ran: &Ran) -> io::Result<()> {
    let (name, line, status) = (case.name, case.line, case.status.unwrap_or(0));
    print!(rt; "{file} line {line}, {name}: {:?} for {status}", ran.code)?;
    if !has_the_calls(case, ran) {
        print!(rt; ", {} calls for {:?}", ran.calls, case.calls)?;
    }
    tell_bytes(rt, case, ran)?;
    println!(rt; "")
}

/// Says of a case what is not well with it.
fn tell_case(rt: &impl Print, file: &str, case: &Case<'_>, fault: &str) -> io::Result<()> {
    let (name, line) = (case.name, case.line);
    println!(rt; "{file} line {line}, {name}: {fault}")
}

/// Says that there was not enough memory for a run.
pub(crate) fn tell_no_memory(rt: &impl Print, file: &str, case: &Case<'_>) -> io::Result<()> {
    tell_case(rt, file, case, "no memory")
}

/// Whether a run came to what its case says, or to something else where it is to differ.
pub(crate) fn is_well(case: &Case<'_>, ran: &Ran) -> bool {
    let alike = is_as_said(case, ran) && has_the_calls(case, ran);
    alike != case.differs
}

/// Says what is not well with a run: how it differs from its case, or that it doesn't where it is to.
pub(crate) fn tell(rt: &impl Print, file: &str, case: &Case<'_>, ran: &Ran) -> io::Result<()> {
    if case.differs {
        tell_case(rt, file, case, "as said, where it is to differ")
    } else {
        tell_difference(rt, file, case, ran)
    }
}
