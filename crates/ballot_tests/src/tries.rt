// A trie that is copied and listed, and what its steps take.
ghost use Rattle.std.specs.Prelude.{◌≡◌, ◌<◌};

use crate::same::same;
use plain_ballots::{BallotLine, Ranking, Steps};
use ranking_trie::Trie;
use std::alloc::Global;
use std::marker::Brand;
use std::mem;
use std::sync::ledger::{Blank, Ledger};
use std::test::Fail;

/// Two ballots for 1 and then 2 stand in a trie.
fn two_in<L: Ledger>(alloc: Global, blank: Blank) -> Result<Trie, Fail>
    requires name { blank.name ≡ L.name }
    requires parts { blank.parts ≡ L.parts }
    requires some_part { 0 < blank.parts }
{
    let mut steps = Steps::<L>::new(blank);
    let mut trie = Trie::new(alloc, 3);
    trie.reserve(2)?;
    let ranking = Ranking::try_new(alloc, 3, &[1, 2])?;
    trie.add_line(&BallotLine { count: 2, ranking }, &mut steps);
    Ok(trie)
}

// The steps that are counted take no bytes.
#[test]
fn a_copy_lists_its_ballots(rt: HostRuntime) -> Result<(), Fail> {
    let trie = two_in::<Brand>(rt.alloc(), Blank::new(1))?;
    let listed = trie.copy()?.to_ballots()?.total();
    same(&rt, (listed, mem::size_of::<Steps<Brand>>()), (2, 0));
    Ok(())
}
