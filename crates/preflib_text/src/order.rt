// A line that is an order.
ghost use Rattle.std.specs.Prelude.{◌≡◌, ◌≤◌, ℕ, length, map, slice_get, unwrap_or, All, Some, None, Ok, IfOk, OnOk, IfErr};
ghost use Rattle.plain_ballots.specs.declared.limits.TheConstants.{MOST_BALLOTS, MOST_CANDIDATES};
ghost use Rattle.preflib_text.specs.Orders.{count_fault, number_fault, order_fault};
ghost use Rattle.preflib_text.specs.Items.{count_of, items, marks_of};
ghost use Rattle.preflib_text.specs.Parts.{parts};
ghost use Rattle.ballot_marks.specs.declared.says.Says.TheVariants.{One as says_one};
ghost use Rattle.plain_ballots.specs.Ranking.{IsRanking};
ghost use Rattle.ballot_marks.specs.Ballot.{ranked, is_passed, is_cut};
ghost use Rattle.ballot_marks.specs.Marks.{SaysOneOf};
ghost use Rattle.preflib_text.specs.Ballots.{treating};
ghost use Rattle.preflib_text.specs.Refusals.{mark_fault, whole_fault};
ghost use Rattle.preflib_text.specs.declared.braced.Braced.TheVariants as braced;
ghost use Rattle.preflib_text.specs.declared.part_stop.PartStop.TheVariants as part_stop;
ghost use Rattle.preflib_text.specs.Standing.{more_braced, starting, listing, marking, next, standing_fault, seen, IsPartStop, IsOrderStop, IsWithin, read};
ghost use Rattle.preflib_text.specs.Stops.{IsPrefStop};
ghost use Rattle.preflib_text.specs.declared.expected.Expected.TheVariants as expected;

use crate::braced::Braced;
use crate::expected::Expected;
use crate::line::Line;
use crate::order_stop::{Misplaced, OrderStop};
use crate::part::{Part, part_from};
use crate::part_stop::PartStop;
use crate::{PrefKind, PrefStop};
use ballot_marks::{Mark, Marks, Says, Treat, TreatStop, Treated, Treatment, treat};
use std::alloc::Global;
use std::marker::Model;

/// An order as far as it is read. Whoever reads many orders can read each of them into the same lists.
#[derive(Drop)]
pub(crate) struct Order {
    candidates: u32,
    expected: Expected,
    count: u32,
    listed: Vec<u32>,
    marks: Marks,
    places: Vec<usize>,
    open_at: usize,
    braced: Braced,
}

impl Model for Order {
    ghost use Rattle.std.specs.Prelude.{◌≤◌};
    ghost use Rattle.plain_ballots.specs.declared.limits.TheConstants.{MOST_CANDIDATES};
    ghost use Rattle.preflib_text.specs.Standing.{Stand};

    ghost Value = { Stand };

    ghost view = { λ o. record {
      candidates = o.candidates;
      expected = o.expected;
      count = o.count;
      listed = o.listed.items;
      marks = o.marks;
      places = o.places.items;
      open_at = o.open_at;
      braced = o.braced;
    } };

    ghost invariant = { λ o. o.candidates ≤ MOST_CANDIDATES };
}

impl Order {
    /// Nothing of an order of so many candidates.
    pub fn new(alloc: Global, candidates: u32) -> Order
        requires { candidates ≤ MOST_CANDIDATES }
        ensures { result ≡ starting candidates }
    {
        Order {
            candidates,
            expected: Expected::Count,
            count: 0,
            listed: Vec::new(alloc),
            marks: Marks::new(alloc),
            places: Vec::new(alloc),
            open_at: 0,
            braced: Braced::Nobody,
        }
    }

    /// The number of ballots that the order stands for.
    pub fn count(&self) -> u32
        ensures { result ≡ self.now.count }
    {
        self.count
    }

    /// Begins another order.
    fn clear(&mut self)
        ensures cleared { self.new ≡ starting self.old.candidates }
        ensures few { self.old.candidates ≤ MOST_CANDIDATES }
    {
        self.expected = Expected::Count;
        self.count = 0;
        self.listed.clear();
        self.marks.clear();
        self.places.clear();
        self.open_at = 0;
        self.braced = Braced::Nobody;
    }

    /// Reads a line as an order, where so many more ballots have room: what its marks come to.
    pub fn ballot(
        &mut self,
        alloc: Global,
        line: &Line<'_>,
        room: u32,
        equal: Treat,
    ) -> Result<Treated, PrefStop>
        requires { room ≤ MOST_BALLOTS }
        ensures sound { OnOk result (whole_fault equal self.old.candidates (room, line.now) ≡ None) }
        ensures stop { IfErr result (IsPrefStop (whole_fault equal self.old.candidates (room, line.now))) }
        ensures count { OnOk result (self.new.count ≡ count_of line.now) }
        ensures ranked { IfOk result (λ treated. ranked (treating equal) (marks_of (items line.now)) ≡ Some treated.ranking) }
        ensures ranking { IfOk result (λ treated. IsRanking self.old.candidates treated.ranking) }
        ensures passed { IfOk result (λ treated. treated.passed ≡ is_passed (treating equal) (marks_of (items line.now))) }
        ensures cut { IfOk result (λ treated. treated.cut ≡ is_cut (treating equal) (marks_of (items line.now))) }
        ensures bounded { OnOk result ((1 ≤ self.new.count) × (self.new.count ≤ room)) }
        ensures candidates { self.new.candidates ≡ self.old.candidates }
    {
        if let Some(fault) = line.form() {
            return Err(PrefStop::Fault(fault));
        }
        self.judge(line, room)?;
        self.treat(alloc, line, equal)
    }

    /// Reads a line as an order, where so many more ballots have room.
    fn judge(&mut self, line: &Line<'_>, room: u32) -> Result<(), PrefStop>
        requires { room ≤ MOST_BALLOTS }
        ensures sound { OnOk result (order_fault room self.old.candidates line.now ≡ None) }
        ensures stop { IfErr result (IsPrefStop (order_fault room self.old.candidates line.now)) }
        ensures count { OnOk result (self.new.count ≡ count_of line.now) }
        ensures marks { OnOk result (self.new.marks ≡ marks_of (items line.now)) }
        ensures places { OnOk result (self.new.places ≡ map (λ item. item.at) (items line.now)) }
        ensures candidates { OnOk result (All (λ m. SaysOneOf self.new.candidates m.says) self.new.marks) }
        ensures inside { OnOk result (All (λ at. at ≤ length line.now.bytes) self.new.places) }
        ensures same { self.new.candidates ≡ self.old.candidates }
        ensures bounded { OnOk result ((1 ≤ self.new.count) × (self.new.count ≤ room)) }
    {
        match self.read(line.bytes(), room) {
            Ok(()) => Ok(()),
            Err(OrderStop::Misplaced(part)) => Err(PrefStop::Fault(line.fault(part.kind, part.at))),
            Err(OrderStop::NoMemory) => Err(PrefStop::NoMemory),
        }
    }

    /// What the marks of a line come to that was read as an order.
    fn treat(&self, alloc: Global, line: &Line<'_>, equal: Treat) -> Result<Treated, PrefStop>
        requires marks { self.now.marks ≡ marks_of (items line.now) }
        requires places { self.now.places ≡ map (λ item. item.at) (items line.now) }
        requires candidates { All (λ m. SaysOneOf self.now.candidates m.says) self.now.marks }
        requires inside { All (λ at. at ≤ length line.now.bytes) self.now.places }
        ensures ranked { IfOk result (λ treated. ranked (treating equal) self.now.marks ≡ Some treated.ranking) }
        ensures ranking { IfOk result (λ treated. IsRanking self.now.candidates treated.ranking) }
        ensures passed { IfOk result (λ treated. treated.passed ≡ is_passed (treating equal) self.now.marks) }
        ensures cut { IfOk result (λ treated. treated.cut ≡ is_cut (treating equal) self.now.marks) }
        ensures sound { OnOk result (mark_fault equal line.now ≡ None) }
        ensures stop { IfErr result (IsPrefStop (mark_fault equal line.now)) }
    {
        match treat(alloc, self.marks.items(), &treating(equal), self.candidates) {
            Ok(treated) => Ok(treated),
            Err(TreatStop::NoMemory) => Err(PrefStop::NoMemory),
            Err(TreatStop::Refused { place, why: _ }) => {
                Err(PrefStop::Fault(line.fault(PrefKind::EqualRank, self.place(place))))
            }
        }
    }

    // The place of a mark's item in its line.
    fn place(&self, mark: usize) -> usize
        ensures at { result ≡ unwrap_or (slice_get self.now.places mark) 0 }
        ensures inside { (bound : ℕ) → All (λ at. at ≤ bound) self.now.places → result ≤ bound }
    {
        match self.places.get(mark) {
            Some(at) => *at,
            None => 0,
        }
    }

    /// Reads a line's bytes as an order, where so many more ballots have room.
    fn read(&mut self, bytes: &[u8], room: u32) -> Result<(), OrderStop>
        requires { room ≤ MOST_BALLOTS }
        ensures inside { IfErr result (IsWithin (length bytes.now)) }
        ensures candidates { self.new.candidates ≡ self.old.candidates }
        ensures ok { OnOk result (read room (starting self.old.candidates) (parts bytes.now) ≡ Ok self.new) }
        ensures stop { IfErr result (IsOrderStop (read room (starting self.old.candidates) (parts bytes.now))) }
    {
        self.clear();
        let mut from = 0;
        loop {
            let found = part_from(bytes, from);
            let at = found.at;
            match self.take(found.part, at, room) {
                Ok(()) => {}
                Err(PartStop::Fault(kind)) => return Err(OrderStop::Misplaced(Misplaced {
                    kind,
                    at,
                })),
                Err(PartStop::NoMemory) => return Err(OrderStop::NoMemory),
            }
            match found.part {
                Part::End => return Ok(()),
                _ => from = found.stop,
            }
        }
    }

    /// Takes the next part, where so many more ballots have room.
    fn take(&mut self, part: Part, at: usize, room: u32) -> Result<(), PartStop>
        ensures ok { OnOk result (self.new ≡ next self.old at (seen part)) }
        ensures sound { OnOk result (standing_fault room self.old (seen part) ≡ None) }
        ensures stop { IfErr result (IsPartStop (standing_fault room self.old (seen part))) }
        ensures candidates { self.new.candidates ≡ self.old.candidates }
    {
        match (self.expected, part) {
            (_, Part::Wrong) => Err(PartStop::Fault(PrefKind::BadByte)),
            (Expected::Count, Part::Number(n)) => self.take_count(n, room),
            (Expected::BehindCount, Part::Colon) => {
                self.expected = Expected::Item;
                Ok(())
            }
            (Expected::Item, Part::Number(n)) => self.take_item(n, at),
            (Expected::Item, Part::Open) => {
                self.open_braces(at);
                Ok(())
            }
            (Expected::BehindItem, Part::Comma) => {
                self.expected = Expected::Item;
                Ok(())
            }
            (Expected::BehindItem, Part::End) => Ok(()),
            (Expected::Number, Part::Number(n)) => self.take_braced(n),
            (Expected::BehindNumber, Part::Comma) => {
                self.expected = Expected::Number;
                Ok(())
            }
            (Expected::BehindNumber, Part::Close) => self.mark(self.open_at, self.braced.says()),
            _ => Err(PartStop::Fault(PrefKind::BadNumber)),
        }
    }

    fn take_count(&mut self, n: u32, room: u32) -> Result<(), PartStop>
        ensures ok { OnOk result (self.new ≡ record self.old { expected = expected.BehindCount; count = n }) }
        ensures sound { OnOk result (count_fault room n ≡ None) }
        ensures stop { IfErr result (IsPartStop (count_fault room n)) }
        ensures candidates { self.new.candidates ≡ self.old.candidates }
    {
        if n == 0 {
            return Err(PartStop::Fault(PrefKind::BadNumber));
        }
        if n > room {
            return Err(PartStop::Fault(PrefKind::TooManyBallots));
        }
        self.expected = Expected::BehindCount;
        self.count = n;
        Ok(())
    }

    /// Takes a candidate.
    fn list(&mut self, n: u32) -> Result<(), PartStop>
        ensures ok { OnOk result (self.new ≡ listing self.old n) }
        ensures sound { OnOk result (number_fault self.old.candidates self.old.listed n ≡ None) }
        ensures stop { IfErr result (IsPartStop (number_fault self.old.candidates self.old.listed n)) }
        ensures candidates { self.new.candidates ≡ self.old.candidates }
    {
        if n == 0 || n > self.candidates {
            return Err(PartStop::Fault(PrefKind::NoSuchCandidate));
        }
        if self.listed.contains(&n) {
            return Err(PartStop::Fault(PrefKind::Repeated));
        }
        match self.listed.push(n) {
            Ok(()) => Ok(()),
            Err(_) => Err(PartStop::NoMemory),
        }
    }

    fn take_item(&mut self, n: u32, at: usize) -> Result<(), PartStop>
        ensures ok { OnOk result (self.new ≡ marking (listing self.old n) at (says_one n)) }
        ensures sound { OnOk result (number_fault self.old.candidates self.old.listed n ≡ None) }
        ensures stop { IfErr result (IsPartStop (number_fault self.old.candidates self.old.listed n)) }
        ensures candidates { self.new.candidates ≡ self.old.candidates }
    {
        self.list(n)?;
        self.mark(at, Says::One(n))
    }

    fn take_braced(&mut self, n: u32) -> Result<(), PartStop>
        ensures ok { OnOk result (self.new ≡ record (listing self.old n) { expected = expected.BehindNumber; braced = more_braced self.old.braced n }) }
        ensures sound { OnOk result (number_fault self.old.candidates self.old.listed n ≡ None) }
        ensures stop { IfErr result (IsPartStop (number_fault self.old.candidates self.old.listed n)) }
        ensures candidates { self.new.candidates ≡ self.old.candidates }
    {
        self.list(n)?;
        self.expected = Expected::BehindNumber;
        self.braced = self.braced.with(n);
        Ok(())
    }

    fn open_braces(&mut self, at: usize)
        ensures { self.new ≡ record self.old { expected = expected.Number; open_at = at; braced = braced.Nobody } }
    {
        self.expected = Expected::Number;
        self.open_at = at;
        self.braced = Braced::Nobody;
    }

    /// An item ended.
    fn mark(&mut self, at: usize, says: Says) -> Result<(), PartStop>
        ensures ok { OnOk result (self.new ≡ marking self.old at says) }
        ensures stop { IfErr result (λ stop. stop ≡ part_stop.NoMemory) }
        ensures candidates { self.new.candidates ≡ self.old.candidates }
    {
        if self.places.push(at).is_err() {
            return Err(PartStop::NoMemory);
        }
        self.marks.push(Mark { skipped: 0, says })?;
        self.expected = Expected::BehindItem;
        Ok(())
    }
}

// A text has no other marks that are not plain than those of equal ranks.
fn treating(equal: Treat) -> Treatment
    ensures { result ≡ treating equal }
{
    Treatment {
        skipped: None,
        equal,
        repeated: Treat::Refuse,
    }
}
