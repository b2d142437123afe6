// Pieces of work done by several workers.
ghost use Rattle.std.specs.Prelude.{◌≡◌, ℕ, ◌<◌, ◌≤◌, Some, None, All, Any, IfOk, IfSome, length, map, slice_index_or, vec_len};
ghost use Rattle.std.specs.List.{AllZip, range_with_len};
ghost use Rattle.shared_work.specs.declared.slot.Slot as declared;

use crate::slot::Slot;
use crate::undone::Undone;
use std::alloc::{AllocError, Global};
use std::thread;
use std::thread::Threads;

/// What comes of each piece of work, by at most so many workers: each does some of the pieces in a thread of
/// its own. Where none can be had, the caller's thread does its work. All pieces are done before one of which
/// nothing came is told.
pub fn done_by_workers<
    R: Threads + Sync,
    W: Send + Drop,
    X: Send + Drop,
    F: Fn(W) -> Option<X> + Sync,
>(rt: &R, alloc: Global, workers: u32, work: Vec<W>, each: &F) -> Result<Vec<X>, Undone>
    requires workers { 1 ≤ workers }
    requires accepts { All (λ piece. F.pre each.now piece) work.items }
    ensures done { IfOk result (λ done. AllZip (λ piece x. F.post each.now piece (Some x)) work.items done.items) }
    ensures nothing { result ≡ Err Undone.Nothing → Any (λ piece. F.post each.now piece None) work.items }
{
    let mut slots = waiting(alloc, work)?;
    serve_each(rt, workers, slots.as_mut_slice(), each);
    all_done(alloc, slots)
}

/// What is made at each of so many places from 0, as [`done_by_workers`] does pieces of work.
pub fn made_by_workers<R: Threads + Sync, X: Send + Drop, F: Fn(usize) -> Option<X> + Sync>(
    rt: &R,
    alloc: Global,
    workers: u32,
    places: usize,
    make: &F,
) -> Result<Vec<X>, Undone>
    requires workers { 1 ≤ workers }
    requires accepts { (i : ℕ) → i < places → F.pre make.now i }
    ensures as_many { IfOk result (λ made. vec_len made ≡ places) }
    ensures made { IfOk result (λ made. (i : ℕ) (d : X) → i < places → F.post make.now i (Some (slice_index_or made.items i d))) }
    ensures nothing { result ≡ Err Undone.Nothing → Any (λ i. F.post make.now i None) (range_with_len 0 places) }
{
    let Ok(numbers) = numbers_below(alloc, places) else {
        return Err(Undone::NoMemory);
    };
    done_by_workers(rt, alloc, workers, numbers, make)
}

/// The numbers of so many places.
fn numbers_below(alloc: Global, places: usize) -> Result<Vec<usize>, AllocError>
    ensures { IfOk result (λ numbers. numbers.items ≡ range_with_len 0 places) }
{
    (0..places).collect(alloc)
}

/// A slot for each piece, which nobody has taken.
fn waiting<W: Drop, X: Drop>(alloc: Global, work: Vec<W>) -> Result<Vec<Slot<W, X>>, Undone>
    ensures waiting { IfOk result (λ slots. map (λ slot. slot.work) slots.items ≡ map Some work.items) }
    ensures nothing { ¬ (result ≡ Err Undone.Nothing) }
{
    let Ok(mut slots) = Vec::with_capacity(alloc, work.len()) else {
        return Err(Undone::NoMemory);
    };
    for piece in work {
        let slot = Slot {
            work: Some(piece),
            done: None,
        };
        if slots.push(slot).is_err() {
            return Err(Undone::NoMemory);
        }
    }
    Ok(slots)
}

/// Does the piece of each slot, in at most so many threads.
fn serve_each<R: Threads + Sync, W: Send + Drop, X: Send + Drop, F: Fn(W) -> Option<X> + Sync>(
    rt: &R,
    workers: u32,
    slots: &mut [Slot<W, X>],
    each: &F,
)
    requires workers { 1 ≤ workers }
    requires accepts { All (λ slot. IfSome slot.work (λ piece. F.pre each.now piece)) slots.old }
    ensures as_many { length slots.new ≡ length slots.old }
    ensures done { (i : ℕ) (d : declared.Slot W X) → i < length slots.old → IfSome (slice_index_or slots.old i d).work (λ piece. F.post each.now piece (slice_index_or slots.new i d).done) }
{
    let serve = |_: usize, slot: &mut Slot<W, X>|
        requires { IfSome slot.now.work (λ piece. F.pre each.now piece) }
        ensures { IfSome slot.entry.now.work (λ piece. F.post each.entry.now piece slot.exit.now.done) }
    { slot.serve(each) };
    thread::for_each_mut(rt, slots, workers as usize, &serve);
}

/// What came of all pieces, unless nothing came of some.
fn all_done<W: Drop, X: Drop>(alloc: Global, slots: Vec<Slot<W, X>>) -> Result<Vec<X>, Undone>
    ensures done { IfOk result (λ done. map Some done.items ≡ map (λ slot. slot.done) slots.items) }
    ensures nothing { result ≡ Err Undone.Nothing → Any (λ slot. slot.done ≡ None) slots.items }
{
    let Ok(mut all) = Vec::with_capacity(alloc, slots.len()) else {
        return Err(Undone::NoMemory);
    };
    for slot in slots {
        let Slot { done, .. } = slot;
        let Some(done) = done else {
            return Err(Undone::Nothing);
        };
        if all.push(done).is_err() {
            return Err(Undone::NoMemory);
        }
    }
    Ok(all)
}
