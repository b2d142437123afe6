// A line of a text.
ghost use Rattle.std.specs.Prelude.{◌≡◌, ◌≤◌, length, position};
ghost use Rattle.preflib_text.specs.Faults.{in_line};
ghost use Rattle.preflib_text.specs.Lines.{is_control, form_fault};
ghost use Rattle.preflib_text.specs.Ballots.{is_metadata};

use crate::{PrefFault, PrefKind};
use std::marker::Model;

/// A line of a text: its number from 1, the byte at which it begins, and its bytes without those that end it.
#[derive(Drop)]
pub(crate) struct Line<'a> {
    pub row: usize,
    pub at: usize,
    pub bytes: &'a [u8],
}

impl<'a> Model for Line<'a> {
    ghost use Rattle.std.specs.Prelude.{◌+◌, ◌<◌, ◌^◌, length};
    ghost use Rattle.preflib_text.specs.Faults.{Line};

    ghost Value = { Line };

    ghost view = { λ l. record { row = l.row; at = l.at; bytes = l.bytes.now } };

    ghost invariant = { λ l. l.at + length l.bytes.now < 2 ^ 63 };
}

impl<'a> Line<'a> {
    pub fn bytes(&self) -> &'a [u8]
        ensures { result.now ≡ self.now.bytes }
    {
        self.bytes
    }

    /// A line of metadata begins with `#`.
    pub fn is_metadata(&self) -> bool
        ensures { result ≡ is_metadata self.now }
    {
        self.bytes.starts_with(b"#")
    }

    /// Why it can't be a line of a text, if it can't.
    pub fn form(&self) -> Option<PrefFault>
        ensures { result ≡ form_fault self.now }
    {
        if self.bytes.is_empty() {
            return Some(self.fault(PrefKind::EmptyLine, 0));
        }
        match first_control(self.bytes) {
            Some(i) => Some(self.fault(PrefKind::BadByte, i)),
            None => None,
        }
    }

    /// A fault at a byte of the line, from 0.
    pub fn fault(&self, kind: PrefKind, i: usize) -> PrefFault
        requires { i ≤ length self.now.bytes }
        ensures { result ≡ in_line self.now kind i }
    {
        PrefFault::Line {
            kind,
            at: self.at + i,
            row: self.row,
            column: i + 1,
        }
    }
}

fn first_control(bytes: &[u8]) -> Option<usize>
    ensures { result ≡ position is_control bytes.now }
{
    bytes.iter().position(|b| is_control(*b))
}

fn is_control(b: u8) -> bool
    ensures { result ≡ is_control b }
{
    b < b' ' && b != b'\t'
}
