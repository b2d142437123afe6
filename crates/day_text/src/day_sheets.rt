// The sheets of a day.
ghost use Rattle.std.specs.Prelude.{◌≡◌, ◌<◌, [], ◌∷◌, ◌++◌, length, slice_get, Some, IfErr, OnOk, OnErr};
ghost use Rattle.day_text.specs.declared.day_stop.DayStop.TheVariants.{NoMemory};

use crate::{DaySheet, DayStop};
use std::alloc::Global;
use std::marker::Model;

/// The sheets of a day's freezes, in the order of the freezes.
#[derive(Debug, Drop)]
pub struct DaySheets<const P: usize> {
    list: Vec<DaySheet<P>>,
}

impl<const P: usize> Model for DaySheets<P> {
    ghost use Rattle.std.specs.Prelude.{List};
    ghost use Rattle.day_text.specs.Values.{FrozenSheet};

    ghost Value = { List FrozenSheet };

    ghost view = { λ sheets. sheets.list.items };
}

impl<const P: usize> DaySheets<P> {
    pub fn new(alloc: Global) -> DaySheets<P>
        ensures { result ≡ [] }
    {
        DaySheets {
            list: Vec::new(alloc),
        }
    }

    /// Puts a sheet after the others.
    pub fn push(&mut self, sheet: DaySheet<P>) -> Result<(), DayStop>
        ensures ok { OnOk result (self.new ≡ self.old ++ sheet.entry ∷ []) }
        ensures refused { OnErr result (self.new ≡ self.old) }
        ensures stop { IfErr result (λ stop. stop ≡ NoMemory) }
    {
        match self.list.push(sheet) {
            Ok(()) => Ok(()),
            Err(_) => Err(DayStop::NoMemory),
        }
    }

    pub fn len(&self) -> usize
        ensures { result ≡ length self.now }
    {
        self.list.len()
    }

    pub fn items(&self) -> &[DaySheet<P>]
        ensures { result.now ≡ self.now }
    {
        self.list.as_slice()
    }

    pub fn get(&self, i: usize) -> &DaySheet<P>
        requires { i < length self.now }
        ensures { slice_get self.now i ≡ Some result.now }
    {
        &self.list[i]
    }
}
