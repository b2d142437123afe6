// Texts of days, where no run of a tool shows the value.
use crate::same::same;
use batch_core::{Call, Change, Entries, Entry, Reply};
use byte_edge::MemorySink;
use call_register::History;
use day_lines::write_entries;
use day_text::day_places;
use std::test::Fail;

// No day is so long that a case has a batch whose revisions are spent.
#[test]
fn a_spent_batch_has_its_line(rt: HostRuntime) -> Result<(), Fail> {
    let mut entries = Entries::new(rt.alloc());
    let change = Change::Withdraw {
        batch: 9,
        revision: 9_999,
    };
    entries.push(Entry {
        caller: 16,
        call: Call::Change(change),
        reply: Reply::Spent,
    })?;
    let mut sink = MemorySink::with_room(rt.alloc(), 100, 100, Vec::new(rt.alloc()))?;
    let written = write_entries(&History::from_entries(entries), &mut sink);
    same(
        &rt,
        (written, sink.bytes()),
        (Ok(()), b"1 team 16 withdraw 9 9999 spent\n"),
    );
    Ok(())
}

/// A text without any amount has the form at each number of places, and the greatest is its own.
const WITHOUT_AMOUNTS: &[u8] =
    b"1 clerk freeze frozen\nsheet 1\ntitle \nseats 1\ncandidates 1\nballots 0\nresult\n1 elected \nend\n";

#[test]
fn a_day_has_its_own_places(rt: HostRuntime) {
    same(&rt, day_places(rt.alloc(), WITHOUT_AMOUNTS), Ok(9));
}
