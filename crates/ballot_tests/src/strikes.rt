// A long day of strikes alone: four hundred thousand, of each of 250 candidates in turn.
ghost use Rattle.std.specs.Prelude.{◌≡◌, ℕ, IfOk};
ghost use Rattle.call_register.specs.Marks.{marks_of};

use crate::same::same;
use batch_core::Reply;
use call_register::{EntryLists, Mark, Marks, weave};
use std::alloc::Global;
use std::test::Fail;

/// So many strikes.
fn strikes(alloc: Global, count: u32) -> Result<Marks, Fail>
    ensures { IfOk result (λ marks. (s : ℕ) → marks_of s marks.items ≡ 0) }
{
    let mut marks = Marks::new(alloc);
    for place in 0..count {
        marks.push(Mark::Strike {
            caller: 1,
            candidate: place % 250 + 1,
        })?;
    }
    Ok(marks)
}

// Were each strike looked up among all before it, this would take minutes.
#[test]
fn many_strikes_are_woven_soon(rt: HostRuntime) -> Result<(), Fail> {
    let marks = strikes(rt.alloc(), 400_000)?;
    let history = weave(rt.alloc(), &marks, EntryLists::new(rt.alloc()))?;
    let entries = history.entries().items();
    let (Some(first), Some(last)) = (entries.first(), entries.get(399_999)) else {
        return Err(Fail::from("a strike is missing"));
    };
    let replies = (first.reply, last.reply);
    same(&rt, replies, (Reply::Struck, Reply::AlreadyStruck));
    Ok(())
}
