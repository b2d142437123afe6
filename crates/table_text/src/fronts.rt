// The short numbers that begin at the bytes ahead.
ghost use Rattle.std.specs.Prelude.{◌≡◌, ◌<◌, ◌≤◌, ◌+◌, length, slice_index, IfSome, IsTrue};
ghost use Rattle.table_text.specs.Fronts.{AreFronts, IsCovered};
ghost use Rattle.table_text.specs.Reader.{IsFieldAt};
ghost use Rattle.table_text.specs.Short.{StandsApart};

use crate::Cell;
use crate::short::front;

/// So many bytes are looked at together.
pub(crate) const ROOM: usize = 512;

/// The short number that begins at each of the bytes from a place on, wherever fields begin there. They are found for many
/// bytes at once, so that who goes from field to field need not wait for the comparisons at one to know where the next begins.
#[derive(Drop)]
pub(crate) struct Fronts {
    pub at: usize,
    pub len: usize,
    pub digits: [u8; ROOM],
    pub numbers: [u8; ROOM],
}

impl Fronts {
    /// Of no bytes yet.
    pub fn new() -> Fronts
        ensures { result.len ≡ 0 }
    {
        Fronts {
            at: 0,
            len: 0,
            digits: [0; ROOM],
            numbers: [0; ROOM],
        }
    }

    /// Whether it is known what begins at a place; if it isn't, it is found, unless too few bytes stand after it.
    #[inline(always)]
    pub fn reach(&mut self, bytes: &[u8], at: usize) -> bool
        requires { AreFronts bytes.now self.old }
        ensures fronts { AreFronts bytes.now self.new }
        ensures covered { IsTrue result → IsCovered self.new at }
    {
        if self.covers(at) {
            return true;
        }
        let limit = bytes.len().saturating_sub(2);
        if at >= limit {
            return false;
        }
        let len = (limit - at).min(ROOM);
        self.find(bytes, at, len);
        true
    }

    #[inline(always)]
    fn covers(&self, at: usize) -> bool
        ensures { IsTrue result → IsCovered self.now at }
    {
        self.at <= at && at - self.at < self.len
    }

    /// Finds what begins at each of so many bytes. No branch depends on them, so that they are looked at several at once.
    #[inline(never)]
    fn find(&mut self, bytes: &[u8], at: usize, len: usize)
        requires room { len ≤ ROOM }
        requires inside { at + len + 2 ≤ length bytes.now }
        ensures fronts { AreFronts bytes.now self.new }
        ensures at { self.new.at ≡ at }
        ensures len { self.new.len ≡ len }
    {
        for k in 0..len {
            let (digits, number) = front(bytes[at + k], bytes[at + k + 1]);
            self.digits[k] = digits as u8;
            self.numbers[k] = number as u8;
        }
        self.at = at;
        self.len = len;
    }

    /// The field that begins at a place, where it is a short number with a separator after it, as most fields of a table of
    /// ranks are. How many digits it has decides no branch: whoever runs over such a table can't foresee it.
    #[inline(always)]
    pub fn short_cell(&self, bytes: &[u8], separator: u8, at: usize) -> Option<Cell>
        requires fronts { AreFronts bytes.now self.now }
        requires covered { IsCovered self.now at }
        requires apart { StandsApart separator }
        ensures field { IfSome result (IsFieldAt separator bytes.now at) }
        ensures inside { IfSome result (λ cell. cell.stop < length bytes.now) }
        ensures parts { IfSome result (λ cell. slice_index bytes.now cell.stop ≡ separator) }
    {
        let k = at - self.at;
        let stop = at + usize::from(self.digits[k]);
        let number = u32::from(self.numbers[k]);
        if bytes[stop] == separator {
            Some(Cell { at, stop, number })
        } else {
            None
        }
    }
}
