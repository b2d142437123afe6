// The plain book.
ghost use Rattle.std.specs.Prelude.{◌≡◌, ◌+◌, ◌≤◌, ◌++◌, [], Some, None, IfOk, IfErr, OnOk, OnErr};
ghost use Rattle.plain_ballots.specs.declared.limits.TheConstants.{MOST_BALLOTS};
ghost use Rattle.plain_ballots.specs.Ballots.{ballot_count};
ghost use Rattle.batch_core.specs.Book.{state_of, by_number, batch_of, reply, after, change_reply, changed, strike_reply, strike, ballot_lines, standing};
ghost use Rattle.batch_core.specs.Lawful.{IsLawful, MayStep, AreOfBatch};
ghost use Rattle.batch_core.specs.declared.change.Change.TheVariants.{Enter};
ghost use Rattle.batch_core.specs.declared.reply.Reply.TheVariants.{Entered};

use crate::batch::Batch;
use crate::{Call, Change, NoMemory, Reply, StepBack};
use plain_ballots::{AppendStop, Ballots};
use std::alloc::Global;
use std::collections::BTreeMap;
use std::marker::Model;

/// The book of an election of so many candidates: batches of ballots by their numbers, and the
/// candidates that withdrew during entry.
#[derive(Drop)]
pub struct Book {
    candidates: u32,
    batches: BTreeMap<u32, Batch>,
    struck: Vec<u32>,
}

impl Model for Book {
    ghost use Rattle.batch_core.specs.Book.{BookList, by_number};
    ghost use Rattle.batch_core.specs.Lawful.{AreKept};

    ghost Value = { BookList };

    ghost view = { λ b. record { candidates = b.candidates; batches = b.batches.entries; struck = b.struck.items } };

    ghost invariant = { λ b. AreKept b.candidates (by_number b.batches.entries) };
}

impl Book {
    pub fn new(alloc: Global, candidates: u32) -> Book
        ensures { result ≡ record { candidates = candidates; batches = []; struck = [] } }
    {
        Book {
            candidates,
            batches: BTreeMap::new(alloc),
            struck: Vec::new(alloc),
        }
    }

    /// Answers a call.
    pub fn step(&mut self, call: Call) -> Result<Reply, StepBack>
        requires lawful { MayStep self.old.candidates call }
        ensures candidates { self.new.candidates ≡ self.old.candidates }
        ensures answered { IfOk result (λ answer. answer ≡ reply (state_of self.old) call) }
        ensures state { OnOk result (state_of self.new ≡ after (state_of self.old) call) }
        ensures handed_back { IfErr result (λ back. back.call ≡ call) }
        ensures refused { OnErr result (self.new ≡ self.old) }
    {
        match call {
            Call::Change(change) => match self.change(change) {
                Ok(reply) => Ok(reply),
                Err(change) => Err(StepBack {
                    call: Call::Change(change),
                }),
            },
            Call::Freeze => Ok(Reply::Frozen),
            Call::Strike(candidate) => match self.strike(candidate) {
                Ok(reply) => Ok(reply),
                Err(_) => Err(StepBack {
                    call: Call::Strike(candidate),
                }),
            },
        }
    }

    /// The lines of all batches that stand, by batch number.
    pub fn ballots(&self, alloc: Global) -> Result<Ballots, NoMemory>
        ensures { IfOk result (λ ballots. ballots ≡ record { candidates = self.now.candidates; lines = standing (state_of self.now) }) }
    {
        let mut ballots = Ballots::new(alloc, self.candidates);
        for batch in self.batches.values() {
            append(&mut ballots, batch)?;
        }
        Ok(ballots)
    }

    /// The struck candidates, in the order of striking.
    pub fn struck(&self) -> &[u32]
        ensures { result.now ≡ self.now.struck }
    {
        self.struck.as_slice()
    }

    fn change(&mut self, change: Change) -> Result<Reply, Change>
        requires lawful { IsLawful self.old.candidates change }
        ensures candidates { self.new.candidates ≡ self.old.candidates }
        ensures struck { self.new.struck ≡ self.old.struck }
        ensures answered { IfOk result (λ answer. answer ≡ change_reply (by_number self.old.batches (batch_of change)) change) }
        ensures state { OnOk result (by_number self.new.batches ≡ changed (by_number self.old.batches) change) }
        ensures handed_back { IfErr result (λ back. back ≡ change) }
        ensures refused { OnErr result (self.new ≡ self.old) }
    {
        let batch = change.batch();
        match self.batches.get_mut(&batch) {
            Some(kept) => Ok(kept.change(change)),
            None => self.change_absent(change),
        }
    }

    fn change_absent(&mut self, change: Change) -> Result<Reply, Change>
        requires lawful { IsLawful self.old.candidates change }
        requires absent { by_number self.old.batches (batch_of change) ≡ None }
        ensures candidates { self.new.candidates ≡ self.old.candidates }
        ensures struck { self.new.struck ≡ self.old.struck }
        ensures answered { IfOk result (λ answer. answer ≡ change_reply None change) }
        ensures state { OnOk result (by_number self.new.batches ≡ changed (by_number self.old.batches) change) }
        ensures handed_back { IfErr result (λ back. back ≡ change) }
        ensures refused { OnErr result (self.new ≡ self.old) }
    {
        match change {
            Change::Enter { batch, ballots } => self.enter(batch, ballots),
            Change::Correct { .. } => Ok(Reply::Unknown),
            Change::Withdraw { .. } => Ok(Reply::Unknown),
        }
    }

    fn enter(&mut self, batch: u32, ballots: Ballots) -> Result<Reply, Change>
        requires lawful { IsLawful self.old.candidates (Enter batch ballots) }
        requires absent { by_number self.old.batches batch ≡ None }
        ensures candidates { self.new.candidates ≡ self.old.candidates }
        ensures struck { self.new.struck ≡ self.old.struck }
        ensures answered { IfOk result (λ answer. answer ≡ Entered) }
        ensures state { OnOk result (by_number self.new.batches ≡ changed (by_number self.old.batches) (Enter batch ballots)) }
        ensures handed_back { IfErr result (λ back. back ≡ Enter batch ballots) }
        ensures refused { OnErr result (self.new ≡ self.old) }
    {
        let entered = Batch {
            revision: 1,
            standing: Some(ballots),
        };
        match self.batches.insert(batch, entered) {
            Ok(_) => Ok(Reply::Entered),
            Err(failed) => match failed.value.1.standing {
                Some(ballots) => Err(Change::Enter { batch, ballots }),
                None => unreachable!(),
            },
        }
    }

    fn strike(&mut self, candidate: u32) -> Result<Reply, NoMemory>
        ensures candidates { self.new.candidates ≡ self.old.candidates }
        ensures batches { self.new.batches ≡ self.old.batches }
        ensures answered { IfOk result (λ answer. answer ≡ strike_reply self.old.struck candidate) }
        ensures struck { OnOk result (self.new.struck ≡ strike self.old.struck candidate) }
        ensures refused { OnErr result (self.new.struck ≡ self.old.struck) }
    {
        if self.struck.contains(&candidate) {
            return Ok(Reply::AlreadyStruck);
        }
        match self.struck.push(candidate) {
            Ok(()) => Ok(Reply::Struck),
            Err(_) => Err(NoMemory),
        }
    }
}

/// Adds the lines of a batch, if it stands, to ballots that have room for them.
fn append(ballots: &mut Ballots, batch: &Batch) -> Result<(), NoMemory>
    requires batch { AreOfBatch ballots.old.candidates batch.now.standing }
    requires room { ballot_count ballots.old.lines + ballot_count (ballot_lines batch.now.standing) ≤ MOST_BALLOTS }
    ensures candidates { ballots.new.candidates ≡ ballots.old.candidates }
    ensures lines { OnOk result (ballots.new.lines ≡ ballots.old.lines ++ ballot_lines batch.now.standing) }
{
    let Some(standing) = &batch.standing else {
        return Ok(());
    };
    match ballots.append_copy(standing) {
        Ok(()) => Ok(()),
        Err(AppendStop::TooMany) => unreachable!(),
        Err(AppendStop::NoMemory) => Err(NoMemory),
    }
}
