//! What a seat knows of its lock. It is in proofs alone.
use std::collections::LinkedList;

/// What a seat that was taken in had given. No value of it is ever made.
pub struct Gave<E> {
    /// The caller number of the seat.
    pub caller: u64,
    /// The entries that it gave.
    pub mine: LinkedList<E>,
}

/// What a seat knows. No value of it is ever made.
pub struct View<E, N> {
    /// The seat was not taken in by another.
    pub lives: bool,
    /// The seat is the lock's first.
    pub is_first: bool,
    /// The seat has the turn.
    pub holds: bool,
    /// The caller number of the seat.
    pub caller: u64,
    /// The name that the lock was made with.
    pub name: Option<N>,
    /// The entries that the seat has seen.
    pub seen: LinkedList<E>,
    /// The entries among them that it gave.
    pub mine: LinkedList<E>,
    /// What the seat that it took in last had seen.
    pub told: LinkedList<E>,
    /// The greatest number given to a seat so far.
    pub given: u64,
    /// The number that the next new seat gets.
    pub next: u64,
    /// The numbers of the seats that are out.
    pub out: LinkedList<u64>,
    /// The numbers that were out before it took in the last one.
    pub prior: LinkedList<u64>,
    /// What the seats gave that it took in.
    pub joined: LinkedList<Gave<E>>,
}
