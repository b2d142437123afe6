// A sheet that is longer than any run of a test could be, words that name no shards and workers, and a made day.
use crate::same::same;
use meek_trial::make_day;
use meek_words::{Command, read_words};
use sheet_input::SheetFault;
use std::test::Fail;
use tool_edge::Fault;

#[test]
fn a_sheet_that_is_too_long_is_told_with_the_limit(rt: HostRuntime) {
    let line = SheetFault::too_long(67_108_864).line();
    same(
        &rt,
        line.bytes(),
        b"refused TooLong at 67108864\n".as_slice(),
    );
}

#[test]
fn a_day_has_eight_shards_and_four_workers(rt: HostRuntime) -> Result<(), Fail> {
    let alloc = rt.alloc();
    let mut words = Vec::new(alloc);
    words.push("day".to_string(alloc)?)?;
    let is_so = matches!(
        read_words(alloc, &words),
        Ok(Command::Day {
            shards: 8,
            workers: 4,
        })
    );
    same(&rt, is_so, true);
    Ok(())
}

// The length is that of a program of its own, written from the rule.
#[test]
fn a_made_day_is_as_long_as_its_lines(rt: HostRuntime) -> Result<(), Fail> {
    same(&rt, make_day(rt.alloc(), 7)?.len(), 21_661);
    Ok(())
}
