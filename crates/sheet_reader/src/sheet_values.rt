// What a sheet says.
use crate::RowList;
use candidate_roll::{MOST_TITLE_BYTES, Name, Names, States};
use std::marker::Model;

/// The values that a sheet of `P` places writes: its head, its iterations, and what became of each candidate. Who was
/// withdrawn before the count is told by the states alone.
#[derive(Debug, Drop)]
pub struct SheetValuesAt<const P: usize> {
    pub title: Name<MOST_TITLE_BYTES>,
    pub seats: u32,
    pub ballots: u64,
    pub names: Names,
    pub rows: RowList<P>,
    pub last: States,
}

/// The values of a sheet of nine places, as a count of a ballot file writes it.
pub type SheetValues = SheetValuesAt<9>;

impl<const P: usize> Model for SheetValuesAt<P> {
    ghost use Rattle.sheet_reader.specs.Values.{SheetList};

    ghost Value = { SheetList };

    ghost view = { λ v. record { title = v.title; seats = v.seats; ballots = v.ballots; names = v.names; rows = v.rows; last = v.last } };
}
