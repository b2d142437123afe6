// How many lines packed ballots are: equal ones are found in a few looks.
use crate::same::same;
use crate::samples::{Line, ballots_of, packed_of, take};
use packed_ballots::PackedBallots;
use std::alloc::Global;
use std::test::Fail;

/// The lines of a ranking, of three hundred others, and of the ranking again.
fn far_apart(alloc: Global) -> Result<usize, Fail> {
    let mut packed = PackedBallots::new(alloc, 250)?;
    take(alloc, &mut packed, 2, &[9, 5])?;
    for place in 0..300 {
        take(alloc, &mut packed, 1, &[10 + place / 10, 100 + place % 10])?;
    }
    take(alloc, &mut packed, 3, &[9, 5])?;
    Ok(packed.len())
}

// Rankings that differ in the ninth rank or the tenth alone.
const NINTHS: &[Line] = &[
    (1, &[1, 2, 3, 4, 5, 6, 7, 8, 11]),
    (1, &[1, 2, 3, 4, 5, 6, 7, 8, 12]),
    (1, &[1, 2, 3, 4, 5, 6, 7, 8, 11]),
    (1, &[1, 2, 3, 4, 5, 6, 7, 8, 12]),
    (1, &[1, 2, 3, 4, 5, 6, 7, 8, 11, 12]),
];

#[test]
fn equal_lines_are_one(rt: HostRuntime) -> Result<(), Fail> {
    let alloc = rt.alloc();
    let ninths = packed_of(alloc, 12, NINTHS)?.len();
    let ballots = ballots_of(alloc, 2, &[(3, &[1, 2]), (1, &[2]), (4, &[1, 2])])?;
    let packed = PackedBallots::pack(alloc, ballots)?.len();
    same(&rt, [far_apart(alloc)?, ninths, packed], [301, 3, 2]);
    Ok(())
}
