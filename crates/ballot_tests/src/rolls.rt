// The greatest roll.
use crate::same::same;
use candidate_roll::{Name, Names, Roll, RollStop};
use std::alloc::Global;
use std::test::Fail;

/// Why so many candidates make no roll.
fn stop_of(alloc: Global, candidates: u32) -> Result<Option<RollStop>, Fail> {
    let mut names = Names::new(alloc);
    for _ in 0..candidates {
        names.push(Name::try_new(alloc, b"A")?)?;
    }
    let title = Name::try_new(alloc, b"T")?;
    Ok(Roll::try_new(alloc, 1, names, title, &[]).err())
}

#[test]
fn at_most_250_names_make_a_roll(rt: HostRuntime) -> Result<(), Fail> {
    let stops = [stop_of(rt.alloc(), 250)?, stop_of(rt.alloc(), 251)?];
    same(&rt, stops, [None, Some(RollStop::BadCount)]);
    Ok(())
}
