// A ballot file as it is looked at: its bytes, its roll, and where the names and the title stand.
ghost use Rattle.std.specs.Prelude.{◌≡◌, ◌≤◌, ◌+◌, length, IfOk};
ghost use Rattle.ballot_findings.specs.Places.{IsMarkOf};
ghost use Rattle.ballot_findings.specs.Sites.{name_at, seats_at, title_at, withdrawn_at};

use crate::mark::Mark;
use crate::no_memory::NoMemory;
use crate::sites::{name_marks, seats_mark, withdrawn_mark};
use candidate_roll::Roll;
use std::alloc::Global;
use std::marker::Model;

/// A ballot file: its bytes, its roll, the mark of each candidate's name, which at index c - 1 is candidate c's, and last that
/// of the title.
#[derive(Drop)]
pub(crate) struct BallotFile<'a> {
    input: &'a [u8],
    roll: &'a Roll,
    names: Vec<Mark>,
}

impl<'a> Model for BallotFile<'a> {
    ghost use Rattle.std.specs.Prelude.{◌+◌, length};
    ghost use Rattle.ballot_findings.specs.Sites.{AreNameMarks, FileList};

    ghost Value = { FileList };

    ghost view = { λ f. record { input = f.input.now; roll = f.roll.now } };

    ghost invariant = { λ f. AreNameMarks f.input.now (length f.roll.now.names + 1) f.names.items };
}

impl<'a> BallotFile<'a> {
    /// The file of these bytes and this roll. One pass over its tokens finds where the names and the title stand.
    pub(crate) fn new(
        alloc: Global,
        input: &'a [u8],
        roll: &'a Roll,
    ) -> Result<BallotFile<'a>, NoMemory>
        ensures { IfOk result (λ file. file ≡ record { input = input.entry.now; roll = roll.entry.now }) }
    {
        let names = name_marks(alloc, input, roll.candidates() + 1)?;
        Ok(BallotFile { input, roll, names })
    }

    pub(crate) fn roll(&self) -> &Roll
        ensures { result.now ≡ self.now.roll }
    {
        self.roll
    }

    /// Where the name of candidate `c` stands.
    pub(crate) fn name(&self, c: u32) -> Mark
        requires { (1 ≤ c) × (c ≤ length self.now.roll.names) }
        ensures { IsMarkOf self.now.input (name_at self.now.input c) result }
    {
        self.string(c)
    }

    /// Where the title stands.
    pub(crate) fn title(&self) -> Mark
        ensures { IsMarkOf self.now.input (title_at self.now.input (length self.now.roll.names)) result }
    {
        self.string(self.roll.candidates() + 1)
    }

    /// Where a string stands that is the name of candidate `c`, or the title.
    fn string(&self, c: u32) -> Mark
        requires { (1 ≤ c) × (c ≤ length self.now.roll.names + 1) }
        ensures { IsMarkOf self.now.input (name_at self.now.input c) result }
    {
        self.names[(c - 1) as usize]
    }

    /// Where the number of seats stands.
    pub(crate) fn seats(&self) -> Mark
        ensures { IsMarkOf self.now.input (seats_at self.now.input) result }
    {
        seats_mark(self.input)
    }

    /// Where the first withdrawn candidate on a ballot stands, found by a further pass up to it.
    pub(crate) fn withdrawn(&self) -> Mark
        ensures { IsMarkOf self.now.input (withdrawn_at self.now.input self.now.roll.withdrawn) result }
    {
        withdrawn_mark(self.input, self.roll)
    }
}
