// Where lines are looked for by their fronts.
ghost use Rattle.std.specs.Prelude.{◌<◌};

use crate::{NoMemory, PackedLine};
use std::alloc::Global;

/// As many seats are looked at for a line.
const LOOKS: usize = 4;

/// The first table has so many seats.
const FEWEST_SEATS: usize = 256;

/// No table has more seats: 128 KiB of them lie in a processor's second cache beside the lines.
const MOST_SEATS: usize = 1 << 15;

/// The places of lines, each plus 1, in seats that their fronts say, and 0 in a free seat. They decide how
/// many equal lines are made one, and so the time alone: whoever looks here compares what he finds.
#[derive(Drop)]
pub(crate) struct Seats {
    places: Vec<u32>,
}

impl Seats {
    /// No seats.
    pub(crate) fn new(alloc: Global) -> Seats {
        Seats {
            places: Vec::new(alloc),
        }
    }

    /// The few seats of the lines of a front.
    #[inline]
    pub(crate) fn near(&self, front: u64) -> &[u32] {
        let from = first_seat(front, self.places.len());
        match self.places.get(from..from + LOOKS) {
            Some(seats) => seats,
            None => &self.places[..0],
        }
    }

    /// Notes that the last of so many lines has this front, where one of its seats is free.
    pub(crate) fn note(&mut self, front: u64, lines: usize) {
        let from = first_seat(front, self.places.len());
        let Ok(place) = u32::try_from(lines) else {
            return;
        };
        if from + LOOKS > self.places.len() {
            return;
        }
        for seat in &mut self.places[from..from + LOOKS] {
            if *seat == 0 {
                *seat = place;
                return;
            }
        }
    }

    /// Makes twice as many seats where these lines are as many as the seats, and gives each line one of them.
    #[inline]
    pub(crate) fn make_room(&mut self, lines: &[PackedLine]) -> Result<(), NoMemory> {
        if lines.len() < self.places.len() || self.places.len() >= MOST_SEATS {
            return Ok(());
        }
        self.grow(lines)
    }

    fn grow(&mut self, lines: &[PackedLine]) -> Result<(), NoMemory> {
        let seats = (self.places.len() * 2).max(FEWEST_SEATS);
        self.places.clear();
        self.places.resize(seats, 0)?;
        for (i, line) in lines.iter().enumerate() {
            self.note(line.front, i + 1);
        }
        Ok(())
    }
}

/// The first of the seats of a front, where there are so many seats, a power of two.
#[inline]
fn first_seat(front: u64, seats: usize) -> usize
    ensures { result < 32768 }
{
    let spread = front.wrapping_mul(0x9E37_79B9_7F4A_7C15) >> 49;
    spread as usize & seats.wrapping_sub(LOOKS)
}
