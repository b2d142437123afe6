// Ballot lines.
ghost use Rattle.std.specs.Prelude.{◌≡◌, ◌+◌, ◌-◌, ◌^◌, ◌<◌, ◌≤◌, [], ◌∷◌, ◌++◌, length, take, replicate, slice_index_or, true, false, Ok, IfOk, IfErr, IfSome, IfNone, OnOk};
ghost use Rattle.plain_ballots.specs.declared.limits.TheConstants.{MOST_BALLOTS};
ghost use Rattle.plain_ballots.specs.Ballots.{ballot_count};
ghost use Rattle.plain_ballots.specs.Ranking.{IsRanking};
ghost use Rattle.input_text.specs.declared.input_stop.InputStop.TheVariants as stop;
ghost use Rattle.input_text.specs.Token.{Number, with_front};
ghost use Rattle.blt_reader.specs.Blt.{AreLines};
ghost use Rattle.blt_reader.specs.BallotTable.{at_rank, Between, at_line};
ghost use Rattle.input_text.specs.Judged.{reads};
ghost use Rattle.input_text.specs.Reads.{IsBehind, tokens_left, IfFault, Reads};
ghost use Rattle.blt_reader.specs.Reads.{Marks};
ghost use Rattle.blt_reader.specs.Stored.{ReadsHeld, HoldsLines};
ghost use Rattle.blt_reader.specs.Pieces.{counted, ReadsOn, ReadsPiece, RefusesPiece, IsEndOrBehind};

use crate::line_bounds::LineBounds;
use crate::named::Named;
use input_text::{FaultKind, InputStop, Tokens};
use packed_ballots::BallotStore;
use plain_ballots::Ballots;
use std::alloc::Global;

/// Ballot lines that were read up to a count after them.
#[derive(Drop)]
pub struct LinePiece<B> {
    pub ballots: B,
    /// That count, and its place.
    pub last: (u32, usize),
}

/// Ballot lines up to the 0 after them, of together at most `most` ballots. `refusal` is the kind
/// of fault of a count that goes past them.
pub fn read_lines(
    alloc: Global,
    tokens: &mut Tokens<'_>,
    candidates: u32,
    most: u32,
    refusal: FaultKind,
) -> Result<Ballots, InputStop>
    requires { most ≤ MOST_BALLOTS }
    ensures reads { Reads (at_line candidates (record { most = most; refusal = refusal })) (Between []) (λ b. b.lines) tokens.old.rest result tokens.new.rest }
    ensures candidates { IfOk result (λ b. b.candidates ≡ candidates) }
    ensures lines { IfOk result (λ b. AreLines candidates most b.lines) }
    ensures behind { IsBehind tokens.old tokens.new }
{
    let first = tokens.next_number()?;
    let bounds = LineBounds {
        candidates,
        most,
        refusal,
    };
    let none = Ballots::new(alloc, candidates);
    read_lines_from(alloc, tokens, none, bounds, first)
}

/// The same into a store that is empty so far, where the first count was taken already, with its place.
pub(crate) fn read_lines_from<B: BallotStore + Drop>(
    alloc: Global,
    tokens: &mut Tokens<'_>,
    empty: B,
    bounds: LineBounds,
    first: (u32, usize),
) -> Result<B, InputStop>
    requires most { bounds.most ≤ MOST_BALLOTS }
    requires none { B.holds empty [] }
    requires candidates { B.among empty ≡ bounds.candidates }
    ensures reads { ReadsHeld B.holds (at_line bounds.candidates (record { most = bounds.most; refusal = bounds.refusal })) (Between []) (λ b lines. lines) (with_front (record { at = first.1; item = Number first.0 }) tokens.old.rest) result tokens.new.rest }
    ensures candidates { IfOk result (λ b. B.among b ≡ bounds.candidates) }
    ensures lines { IfOk result (HoldsLines B.holds bounds.candidates bounds.most) }
    ensures behind { IsBehind tokens.old tokens.new }
{
    read_lines_on(alloc, tokens, empty, bounds, first)
}

/// The same into a store that has lines within these bounds already.
pub fn read_lines_on<B: BallotStore + Drop>(
    alloc: Global,
    tokens: &mut Tokens<'_>,
    store: B,
    bounds: LineBounds,
    first: (u32, usize),
) -> Result<B, InputStop>
    requires most { bounds.most ≤ MOST_BALLOTS }
    requires held { HoldsLines B.holds bounds.candidates bounds.most store }
    requires candidates { B.among store ≡ bounds.candidates }
    ensures reads { ReadsOn B.holds bounds store (counted first tokens.old.rest) result tokens.new.rest }
    ensures candidates { IfOk result (λ b. B.among b ≡ bounds.candidates) }
    ensures lines { IfOk result (HoldsLines B.holds bounds.candidates bounds.most) }
    ensures behind { IsBehind tokens.old tokens.new }
{
    let mut ahead = tokens.same();
    let found = read_lines_ahead(alloc, &mut ahead, store, bounds, first, usize::MAX);
    *tokens = ahead;
    match found {
        Ok(piece) => {
            place_fits(piece.last.1);
            Ok(piece.ballots)
        }
        Err(why) => Err(why),
    }
}

// A place is a number of 64 bits, so none is after the last of them.
#[inline(always)]
fn place_fits(at: usize)
    ensures { at ≤ 2 ^ 64 - 1 }
{
    let _ = at;
}

/// Lines up to the first count that is the 0 after all lines or is after `place`: the store with
/// these lines too, and that count.
pub fn read_piece<B: BallotStore + Drop>(
    alloc: Global,
    tokens: &mut Tokens<'_>,
    store: B,
    bounds: LineBounds,
    first: (u32, usize),
    place: usize,
) -> Result<LinePiece<B>, InputStop>
    requires most { bounds.most ≤ MOST_BALLOTS }
    requires held { HoldsLines B.holds bounds.candidates bounds.most store }
    requires candidates { B.among store ≡ bounds.candidates }
    ensures reads { IfOk result (λ piece. ReadsPiece B.holds bounds store (counted first tokens.old.rest) piece.ballots (counted piece.last tokens.new.rest)) }
    ensures last { IfOk result (λ piece. IsEndOrBehind place piece.last) }
    ensures refused { IfFault result (λ fault. RefusesPiece B.holds bounds store (counted first tokens.old.rest) fault tokens.new.rest) }
    ensures candidates { IfOk result (λ piece. B.among piece.ballots ≡ bounds.candidates) }
    ensures behind { IsBehind tokens.old tokens.new }
{
    let mut ahead = tokens.same();
    let found = read_lines_ahead(alloc, &mut ahead, store, bounds, first, place);
    *tokens = ahead;
    found
}

// The same over tokens that nobody else sees, so that their place can stay in a register.
#[inline(always)]
fn read_lines_ahead<B: BallotStore + Drop>(
    alloc: Global,
    tokens: &mut Tokens<'_>,
    store: B,
    bounds: LineBounds,
    first: (u32, usize),
    place: usize,
) -> Result<LinePiece<B>, InputStop>
    requires most { bounds.most ≤ MOST_BALLOTS }
    requires held { HoldsLines B.holds bounds.candidates bounds.most store }
    requires candidates { B.among store ≡ bounds.candidates }
    ensures reads { IfOk result (λ piece. ReadsPiece B.holds bounds store (counted first tokens.old.rest) piece.ballots (counted piece.last tokens.new.rest)) }
    ensures last { IfOk result (λ piece. IsEndOrBehind place piece.last) }
    ensures refused { IfFault result (λ fault. RefusesPiece B.holds bounds store (counted first tokens.old.rest) fault tokens.new.rest) }
    ensures candidates { IfOk result (λ piece. B.among piece.ballots ≡ bounds.candidates) }
    ensures behind { IsBehind tokens.old tokens.new }
{
    let candidates = bounds.candidates;
    let mut named = Named::new(alloc, candidates as usize + 1)?;
    let mut room = vec![in alloc; 0; candidates as usize]?;
    let ranks = room.as_mut_slice();
    let mut ballots = store;
    let (mut count, mut at) = first;
    while count > 0 && at <= place {
        if count as u64 > bounds.most as u64 - ballots.ballot_count() {
            return Err(InputStop::refused(bounds.refusal, at));
        }
        let len = read_ranks(tokens, candidates, &mut named, ranks)?;
        let Ok(()) = ballots.take_line(alloc, count, ranks, len) else {
            return Err(InputStop::NoMemory);
        };
        let next = tokens.next_number()?;
        count = next.0;
        at = next.1;
    }
    Ok(LinePiece {
        ballots,
        last: (count, at),
    })
}

// Candidates in order of rank, up to the 0 after them: they stand in front of `ranks`, and are so many.
#[inline(always)]
fn read_ranks(
    tokens: &mut Tokens<'_>,
    candidates: u32,
    named: &mut Named,
    ranks: &mut [u32],
) -> Result<usize, InputStop>
    requires numbers { length named.old ≡ candidates + 1 }
    requires room { length ranks.old ≡ candidates }
    ensures reads { Reads (at_rank candidates) [] (λ len. take len ranks.new) tokens.old.rest result tokens.new.rest }
    ensures within { IfOk result (λ len. len ≤ candidates) }
    ensures ranking { IfOk result (λ len. IsRanking candidates (take len ranks.new)) }
    ensures numbers { length named.new ≡ length named.old }
    ensures room { length ranks.new ≡ length ranks.old }
    ensures fewer { OnOk result (tokens_left tokens.new < tokens_left tokens.old) }
    ensures behind { IsBehind tokens.old tokens.new }
{
    named.clear();
    let (mut len, has_ended) = short_ranks(tokens, candidates, named, ranks);
    if has_ended {
        return Ok(len);
    }
    loop {
        let (n, at) = tokens.next_number()?;
        if n == 0 {
            return Ok(len);
        }
        if n > candidates {
            return Err(InputStop::refused(FaultKind::NoSuchCandidate, at));
        }
        if named.mark(n as usize) {
            return Err(InputStop::refused(FaultKind::Repeated, at));
        }
        ranks[len] = n;
        len += 1;
    }
}

// As many ranks as are short numbers and may stand there, and whether the 0 after them was one too.
// Nothing is called in the loop, so that all of it stays in registers.
#[inline(never)]
fn short_ranks(
    tokens: &mut Tokens<'_>,
    candidates: u32,
    named: &mut Named,
    ranks: &mut [u32],
) -> (usize, bool)
    requires none { named.old ≡ replicate (candidates + 1) false }
    requires room { length ranks.old ≡ candidates }
    ensures ended { result.1 ≡ true → reads (at_rank candidates) [] tokens.old.rest ≡ Ok (take result.0 ranks.new, tokens.new.rest) }
    ensures goes_on { result.1 ≡ false → reads (at_rank candidates) [] tokens.old.rest ≡ reads (at_rank candidates) (take result.0 ranks.new) tokens.new.rest }
    ensures within { result.0 ≤ candidates }
    ensures ranking { IsRanking candidates (take result.0 ranks.new) }
    ensures numbers { length named.new ≡ length named.old }
    ensures marks { Marks candidates named.new (take result.0 ranks.new) }
    ensures room { length ranks.new ≡ length ranks.old }
    ensures not_more { tokens_left tokens.new ≤ tokens_left tokens.old }
    ensures fewer { result.1 ≡ true → tokens_left tokens.new < tokens_left tokens.old }
    ensures behind { IsBehind tokens.old tokens.new }
{
    let mut ahead = tokens.same();
    let mut len = 0;
    while let Some((n, _)) = next_unnamed(&mut ahead, candidates, named) {
        named.mark(n as usize);
        ranks[len] = n;
        len += 1;
    }
    let ending = next_zero(&mut ahead);
    *tokens = ahead;
    match ending {
        Some(_) => (len, true),
        None => (len, false),
    }
}

// The next token where it is a short number of a candidate who isn't named yet, and its place. Else
// nothing is taken.
#[inline(always)]
fn next_unnamed(tokens: &mut Tokens<'_>, candidates: u32, named: &Named) -> Option<(u32, usize)>
    requires { length named.now ≡ candidates + 1 }
    ensures number { IfSome result (λ found. tokens.old.rest ≡ with_front (record { at = found.1; item = Number found.0 }) tokens.new.rest) }
    ensures candidate { IfSome result (λ found. (1 ≤ found.0) × (found.0 ≤ candidates)) }
    ensures unnamed { IfSome result (λ found. slice_index_or named.now found.0 false ≡ false) }
    ensures none { IfNone result (tokens.new ≡ tokens.old) }
    ensures behind { IsBehind tokens.old tokens.new }
{
    let before = tokens.same();
    let (n, at) = tokens.next_short(candidates < 100)?;
    if n == 0 || n > candidates || named.has(n as usize) {
        *tokens = before;
        return None;
    }
    Some((n, at))
}

// Whether the next token is a short 0, and its place. It is taken then, and else nothing is.
#[inline(always)]
fn next_zero(tokens: &mut Tokens<'_>) -> Option<usize>
    ensures number { IfSome result (λ at. tokens.old.rest ≡ with_front (record { at = at; item = Number 0 }) tokens.new.rest) }
    ensures none { IfNone result (tokens.new ≡ tokens.old) }
    ensures behind { IsBehind tokens.old tokens.new }
{
    let before = tokens.same();
    let (n, at) = tokens.next_short(true)?;
    if n > 0 {
        *tokens = before;
        return None;
    }
    Some(at)
}
