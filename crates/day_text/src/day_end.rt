// What is in the end of a day.
use crate::BatchEnd;
use std::marker::Model;

/// The batches that were entered, by rising number, and the struck candidates in the order of striking.
#[derive(Debug, Drop)]
pub struct DayEnd {
    pub batches: Vec<BatchEnd>,
    pub struck: Vec<u32>,
}

impl Model for DayEnd {
    ghost use Rattle.day_text.specs.End.{DayEndList};

    ghost Value = { DayEndList };

    ghost view = { λ e. record { batches = e.batches.items; struck = e.struck.items } };
}
