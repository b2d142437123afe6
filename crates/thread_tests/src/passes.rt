// Passes that call one after another.
ghost use Rattle.std.specs.Prelude.{◌≡◌};

use crate::same::same;
use batch_core::Reply;
use shard_office::{Clerk, NoMemory, Office, Pass};
use std::alloc::Global;
use std::sync::Wait;
use std::test::Fail;

// Both passes strike candidate 3, the second pass first.
fn strike_both<R: Wait>(
    rt: &R,
    office: &Office,
    one: &mut Pass,
    two: &mut Pass,
) -> Result<(Reply, Reply), NoMemory>
    requires one { one.old.office ≡ office.now }
    requires two { two.old.office ≡ office.now }
    requires candidates { office.now.candidates ≡ 3 }
{
    let first = office.strike(rt, two, 3)?;
    let second = office.strike(rt, one, 3)?;
    Ok((first, second))
}

// Each pass was made before the other called, and hasn't seen its call.
fn two_passes<R: Wait>(
    rt: &R,
    alloc: Global,
    office: &Office,
    clerk: &mut Clerk,
) -> Result<(Reply, Reply), NoMemory>
    requires clerk { clerk.old.desk.office ≡ office.now }
    requires nobody { clerk.old.last_caller ≡ 0 }
    requires candidates { office.now.candidates ≡ 3 }
{
    let mut one = clerk.team(alloc, office, 1)?;
    let mut two = clerk.team(alloc, office, 2)?;
    strike_both(rt, office, &mut one, &mut two)
}

// No clause says that the calls of one thread stand in the order in which it made them.
#[test]
fn calls_of_one_thread_come_in_order(rt: HostRuntime) -> Result<(), Fail> {
    let (office, mut clerk) = Office::try_new(rt.alloc(), 3, 2, 1)?;
    let replies = two_passes(&rt, rt.alloc(), &office, &mut clerk).ok();
    same(&rt, replies, Some((Reply::Struck, Reply::AlreadyStruck)));
    Ok(())
}
