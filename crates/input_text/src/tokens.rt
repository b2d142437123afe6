// The tokens of an input, one after another.
ghost use Rattle.std.specs.Prelude.{◌≡◌, ◌≤◌, if◌then◌else◌, Bool, length, true, IfOk, IfErr, IfSome, IfNone};
ghost use Rattle.input_text.specs.Token.{Number, with_front};
ghost use Rattle.input_text.specs.Scan.{scan, cut};
ghost use Rattle.input_text.specs.Reader.{Gives, placed, GivesToken, IsTokenAt, IsTextOf, IsSaid};
ghost use Rattle.input_text.specs.ShortNumber.{HasNoNumberAhead};
ghost use Rattle.input_text.specs.Reads.{IsBehind, IsEnded, Stops, as_number};

use crate::pieces::{Piece, first_piece};
use crate::short_number::{is_separator, short_number};
use crate::{FaultKind, InputFault, Next, Token, What};
use std::marker::Model;

/// The tokens of an input that are still to come, one after another.
#[derive(Drop)]
pub struct Tokens<'a> {
    bytes: &'a [u8],
    at: usize,
    letters: bool,
}

impl<'a> Model for Tokens<'a> {
    ghost use Rattle.std.specs.Prelude.{◌≤◌, length};
    ghost use Rattle.input_text.specs.Scan.{cut};
    ghost use Rattle.input_text.specs.Reader.{Reader};

    ghost Value = { Reader };

    ghost view = { λ t. record { bytes = t.bytes.now; rest = cut t.letters 0 t.at t.bytes.now } };

    ghost invariant = { λ t. t.at ≤ length t.bytes.now };
}

// The place after one separator, where one is at this place. So a token is begun at its first byte
// where one separator is before it.
fn past_separator(bytes: &[u8], at: usize) -> usize
    requires { at ≤ length bytes.now }
    ensures within { result ≤ length bytes.now }
    ensures same { (letters : Bool) → cut letters 0 at bytes.now ≡ cut letters 0 result bytes.now }
{
    if at < bytes.len() && is_separator(bytes[at]) {
        at + 1
    } else {
        at
    }
}

// What comes from a place on, and a place from which all that is after it comes.
fn next_from(bytes: &[u8], letters: bool, from: usize) -> (Next, usize)
    requires { from ≤ length bytes.now }
    ensures within { result.1 ≤ length bytes.now }
    ensures text { GivesToken bytes.now result.0 }
    ensures gives { Gives bytes.now (cut letters 0 from bytes.now) result.0 (cut letters 0 result.1 bytes.now) }
{
    let mut at = from;
    while at < bytes.len() {
        match first_piece(&bytes[at..], letters) {
            Piece::Gap(n) => at += n,
            Piece::Lexeme(what, n) => {
                let stop = at + n;
                let behind = past_separator(bytes, stop);
                return (Next::Token(Token { at, stop, what }), behind);
            }
            Piece::Wrong(n) => return (fault(FaultKind::BadByte, at + n), at),
            Piece::Unclosed(n) => return (fault(FaultKind::Ended, at + n), at),
        }
    }
    (Next::End, at)
}

fn fault(kind: FaultKind, at: usize) -> Next
    ensures { result ≡ Next.Fault (record { kind = kind; at = at }) }
{
    Next::Fault(InputFault::new(kind, at))
}

// A number from a place on and its place, or why there is none, and the place after. What is
// taken and given are values, so that a loop over numbers can keep its place in a register.
#[tactic(auto, using(crate::proofs::Reading::behind_next))]
#[inline(never)]
fn number_from(
    bytes: &[u8],
    letters: bool,
    from: usize,
) -> (Result<(u32, usize), InputFault>, usize)
    requires { from ≤ length bytes.now }
    ensures within { result.1 ≤ length bytes.now }
    ensures number { IfOk result.0 (λ found. cut letters 0 from bytes.now ≡ with_front (record { at = found.1; item = Number found.0 }) (cut letters 0 result.1 bytes.now)) }
    ensures fault { IfErr result.0 (λ fault. Stops as_number (cut letters 0 from bytes.now) fault (cut letters 0 result.1 bytes.now)) }
    ensures behind { IsBehind (record { bytes = bytes.now; rest = cut letters 0 from bytes.now }) (record { bytes = bytes.now; rest = cut letters 0 result.1 bytes.now }) }
{
    let (next, at) = next_from(bytes, letters, from);
    match next {
        Next::Token(token) => match token.what {
            What::Number(n) => (Ok((n, token.at)), at),
            What::Minus(_) => (Err(InputFault::new(FaultKind::BadNumber, token.at)), at),
            What::Text => (Err(InputFault::new(FaultKind::BadNumber, token.at)), at),
            What::Word => (Err(InputFault::new(FaultKind::BadNumber, token.at)), at),
        },
        Next::End => (Err(InputFault::new(FaultKind::Ended, bytes.len())), at),
        Next::Fault(fault) => (Err(fault), at),
    }
}

impl<'a> Tokens<'a> {
    /// The tokens of an input, after its byte order mark. `letters` says whether it may have words.
    pub fn new(bytes: &'a [u8], letters: bool) -> Self
        ensures { result ≡ record { bytes = bytes.entry.now; rest = scan bytes.entry.now letters } }
    {
        let at = if bytes.starts_with(&[0xEF, 0xBB, 0xBF]) {
            3
        } else {
            0
        };
        Tokens { bytes, at, letters }
    }

    /// The tokens of an input from a place on. Where it lies within a token or a comment they are none of the
    /// input's: whoever begins in the middle has to hold this reader against one that came there.
    pub fn from_place(bytes: &'a [u8], letters: bool, at: usize) -> Self
        requires { at ≤ length bytes.now }
        ensures { result ≡ record { bytes = bytes.entry.now; rest = cut letters 0 at bytes.entry.now } }
    {
        Tokens { bytes, at, letters }
    }

    /// Whether this reader is at the place of another one of the same input. Then both give the same.
    pub fn stands_with(&self, other: &Tokens<'_>) -> bool
        requires { self.now.bytes ≡ other.now.bytes }
        ensures { result ≡ true → self.now ≡ other.now }
    {
        self.at == other.at && self.letters == other.letters
    }

    /// A reader of its own that is at the place of this one.
    #[inline(always)]
    pub fn same(&self) -> Tokens<'a>
        ensures { result ≡ self.now }
    {
        Tokens {
            bytes: self.bytes,
            at: self.at,
            letters: self.letters,
        }
    }

    /// The whole input.
    pub fn input(&self) -> &'a [u8]
        ensures { result.now ≡ self.now.bytes }
    {
        self.bytes
    }

    /// The length of the input.
    pub fn input_len(&self) -> usize
        ensures { result ≡ length self.now.bytes }
    {
        self.bytes.len()
    }

    /// The next token. An end and a fault are answered again.
    pub fn next(&mut self) -> Next
        ensures bytes { self.new.bytes ≡ self.old.bytes }
        ensures text { GivesToken self.old.bytes result }
        ensures gives { Gives self.old.bytes self.old.rest result self.new.rest }
    {
        let (next, at) = next_from(self.bytes, self.letters, self.at);
        self.at = at;
        next
    }

    /// The next token, where the input may not end: its end is a fault too.
    pub fn next_token(&mut self) -> Result<Token, InputFault>
        ensures text { IfOk result (λ token. IsTokenAt self.old.bytes token.at token.stop token.what) }
        ensures token { IfOk result (λ token. self.old.rest ≡ with_front (placed self.old.bytes token) self.new.rest) }
        ensures fault { IfErr result (λ fault. IsEnded self.old.rest fault self.new.rest) }
        ensures behind { IsBehind self.old self.new }
    {
        match self.next() {
            Next::Token(token) => Ok(token),
            Next::End => Err(InputFault {
                kind: FaultKind::Ended,
                at: self.input_len(),
            }),
            Next::Fault(fault) => Err(fault),
        }
    }

    /// The next token, which has to be a number, and its place.
    #[inline(always)]
    pub fn next_number(&mut self) -> Result<(u32, usize), InputFault>
        ensures number { IfOk result (λ found. self.old.rest ≡ with_front (record { at = found.1; item = Number found.0 }) self.new.rest) }
        ensures fault { IfErr result (λ fault. Stops as_number self.old.rest fault self.new.rest) }
        ensures behind { IsBehind self.old self.new }
    {
        match self.next_short(true) {
            Some(found) => Ok(found),
            None => {
                let (found, at) = number_from(self.bytes, self.letters, self.at);
                self.at = at;
                found
            }
        }
    }

    /// The same where it is a number of one to three digits with one separator after it, or of one or two
    /// where numbers of three are `rare`. Else nothing is taken, nor where less than four bytes are left, nor
    /// where this reader is before a separator. A loop that takes short numbers so calls nothing.
    #[inline(always)]
    pub fn next_short(&mut self, rare: bool) -> Option<(u32, usize)>
        ensures number { IfSome result (λ found. self.old.rest ≡ with_front (record { at = found.1; item = Number found.0 }) self.new.rest) }
        ensures none { IfNone result (HasNoNumberAhead (if rare then 3 else 4) self.old) }
        ensures same { IfNone result (self.new ≡ self.old) }
        ensures behind { IsBehind self.old self.new }
    {
        let (n, len) = short_number(&self.bytes[self.at..], rare)?;
        let at = self.at;
        self.at = at + len;
        Some((n, at))
    }

    /// A string without its quotes, or a word.
    pub fn text(&self, token: Token) -> &'a [u8]
        requires { IsTextOf self.now.bytes token }
        ensures { IsSaid self.now.bytes token result.now }
    {
        match token.what {
            What::Text => &self.bytes[token.at + 1..token.stop - 1],
            _ => &self.bytes[token.at..token.stop],
        }
    }
}
