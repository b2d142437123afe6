// The calls at an office that several callers share.
ghost use Rattle.std.specs.Prelude.{◌≡◌, ℕ, ◌≤◌, ◌++◌, ◌∷◌, [], OnOk, OnErr, IfOk, IfErr};
ghost use Rattle.plain_ballots.specs.declared.limits.TheConstants.{MOST_CANDIDATES};
ghost use Rattle.batch_core.specs.Book.{batch_of};
ghost use Rattle.batch_core.specs.Lawful.{IsLawful};
ghost use Rattle.batch_core.specs.Shards.{shard_of};
ghost use Rattle.shard_office.specs.declared.limits.TheConstants.{MOST_SHARDS};
ghost use Rattle.shard_office.specs.Names.{change_entry, strike_answer};
ghost use Rattle.call_register.specs.declared.mark.Mark.TheVariants.{Freeze, Strike};
ghost use Rattle.shard_office.specs.Sight.{GoesOn, IsChange, IsStrike, AddsEntry, AddsMark, entries_of};
ghost use Rattle.call_register.specs.Weaving.{freeze_entry, list_of};
ghost use Rattle.shard_office.specs.Passes.{own};
ghost use Rattle.shard_office.specs.Versions.{IsFreeze};
ghost use Rattle.shard_office.specs.Closing.{IsClosed, HoldsAll};

use crate::asked::Asked;
use crate::call_back::CallBack;
use crate::changing::answer;
use crate::clerk::Clerk;
use crate::close_back::CloseBack;
use crate::closing::Closing;
use crate::desk::Desk;
use crate::ending::end_all;
use crate::freezing::freeze;
use crate::no_memory::NoMemory;
use crate::opening::open_all;
use crate::pass::Pass;
use crate::register_value::RegisterValue;
use crate::striking::strike;
use crate::version::Version;
use crate::window::Window;
use batch_core::{Change, Reply, shard_of};
use byte_edge::Gate;
use call_register::{EntryLists, History, Register};
use std::alloc::Global;
use std::marker::Model;
use std::snapshot::Snapshot;
use std::sync::Wait;
use std::thread::Threads;
use turn_lock::TurnLock;

/// An office of so many shards and candidates. Contracts see these numbers, and which office it is by
/// its windows and its register's lock; nothing in them depends on how many workers make the plans of
/// a freeze.
#[derive(Drop)]
pub struct Office {
    pub(crate) shards: u32,
    pub(crate) candidates: u32,
    pub(crate) workers: u32,
    pub(crate) windows: Vec<Window>,
    pub(crate) register: TurnLock<RegisterValue>,
}

impl Model for Office {
    ghost use Rattle.std.specs.Prelude.{◌≡◌, ◌≤◌, length};
    ghost use Rattle.plain_ballots.specs.declared.limits.TheConstants.{MOST_CANDIDATES};
    ghost use Rattle.shard_office.specs.declared.limits.TheConstants.{MOST_SHARDS};
    ghost use Rattle.shard_office.specs.Office.{OfficeState};

    ghost Value = { OfficeState };

    ghost view = { λ o. record { shards = o.shards; candidates = o.candidates; identity = record { windows = o.windows.items; register = o.register } } };

    ghost invariant = { λ o. (length o.windows.items ≡ o.shards) × (1 ≤ o.shards) × (o.shards ≤ MOST_SHARDS) × (o.candidates ≤ MOST_CANDIDATES) × (1 ≤ o.workers) };
}

impl Office {
    /// A new office of 1 to 250 candidates and 1 to 64 shards, whose freezes are made by at most so many
    /// workers, and its clerk, who has seen nothing yet.
    pub fn try_new(
        alloc: Global,
        candidates: u32,
        shards: u32,
        workers: u32,
    ) -> Result<(Office, Clerk), NoMemory>
        requires candidates { (1 ≤ candidates) × (candidates ≤ MOST_CANDIDATES) }
        requires shards { (1 ≤ shards) × (shards ≤ MOST_SHARDS) }
        requires workers { 1 ≤ workers }
        ensures office { IfOk result (λ made. (made.0.shards ≡ shards) × (made.0.candidates ≡ candidates)) }
        ensures desk { IfOk result (λ made. (made.1.desk.office ≡ made.0) × (made.1.desk.caller ≡ 0)) }
        ensures nothing_seen { IfOk result (λ made. (made.1.desk.sight.marks ≡ []) × ((s : ℕ) → entries_of made.1.desk.sight s ≡ [])) }
        ensures nobody_taken { IfOk result (λ made. (made.1.taken ≡ []) × (made.1.last_caller ≡ 0) × (made.1.open_teams ≡ 0)) }
    {
        let room = shards as usize;
        let mut windows = Vec::with_capacity(alloc, room)?;
        let mut seats = Vec::with_capacity(alloc, room)?;
        let mut halves = Vec::with_capacity(alloc, room)?;
        let lists = Vec::with_capacity(alloc, room)?;
        open_all(
            alloc,
            shards,
            candidates,
            &mut windows,
            &mut seats,
            &mut halves,
        )?;
        let register = Register::new(alloc, shards, candidates)?;
        let value = RegisterValue { register, halves };
        let (lock, seat) = TurnLock::try_new(alloc, value)?;
        let office = Office {
            shards,
            candidates,
            workers,
            windows,
            register: lock,
        };
        let desk = Desk {
            office: Snapshot::of(&office),
            caller: 0,
            shards: seats,
            register: seat,
        };
        let clerk = Clerk {
            desk,
            last: 0,
            teams: 0,
            taken: Vec::new(alloc),
            lists,
        };
        Ok((office, clerk))
    }

    /// Answers a change by a pass, as a plain book answers it after all entries of its shard, and waits
    /// for its turn to do so. The gate is passed in the shard's turn, before the register's is taken,
    /// as tests alone show.
    ///
    /// The pass has then seen the whole shard, with this entry as the last, and all marks, with this
    /// entry's as the last. After want of memory the change comes back; then there is neither a mark
    /// nor an entry of it, and the pass may have seen more.
    pub fn call<R: Wait, G: Gate>(
        &self,
        rt: &R,
        pass: &mut Pass,
        change: Change,
        gate: &G,
    ) -> Result<Reply, CallBack>
        requires office { pass.old.office ≡ self.now }
        requires lawful { IsLawful self.now.candidates change }
        ensures office { pass.new.office ≡ pass.old.office }
        ensures caller { pass.new.caller ≡ pass.old.caller }
        ensures goes_on { GoesOn pass.old.sight pass.new.sight }
        ensures answered { IfOk result (λ answer. IsChange (shard_of (batch_of change) self.now.shards) (change_entry pass.old.caller change answer) pass.old.sight pass.new.sight) }
        ensures own { IfOk result (λ answer. own pass.new ≡ own pass.old ++ change_entry pass.old.caller change answer ∷ []) }
        ensures mine { IfOk result (λ answer. AddsEntry (shard_of (batch_of change) self.now.shards) (change_entry pass.old.caller change answer) pass.old.mine pass.new.mine) }
        ensures handed_back { IfErr result (λ back. back.change ≡ change) }
        ensures refused { OnErr result (own pass.new ≡ own pass.old) }
        ensures nothing_made { OnErr result (pass.new.mine ≡ pass.old.mine) }
    {
        let shard = shard_of(change.batch(), self.shards);
        let asked = Asked {
            caller: pass.desk.caller,
            shard,
            change,
        };
        let seat = &mut pass.desk.shards[shard as usize - 1];
        answer(rt, gate, self, seat, &mut pass.desk.register, asked)
    }

    /// Strikes a candidate by a pass: the reply says whether an earlier mark does so already. It waits
    /// for the register's turn alone. The pass has then seen all marks, with this one as the last. After
    /// want of memory there is no mark of it, and the pass may have seen more marks.
    pub fn strike<R: Wait>(
        &self,
        rt: &R,
        pass: &mut Pass,
        candidate: u32,
    ) -> Result<Reply, NoMemory>
        requires office { pass.old.office ≡ self.now }
        requires candidate { (1 ≤ candidate) × (candidate ≤ self.now.candidates) }
        ensures office { pass.new.office ≡ pass.old.office }
        ensures caller { pass.new.caller ≡ pass.old.caller }
        ensures goes_on { GoesOn pass.old.sight pass.new.sight }
        ensures lists { pass.new.sight.lists ≡ pass.old.sight.lists }
        ensures answered { IfOk result (λ answer. IsStrike pass.old.caller candidate answer pass.old.sight pass.new.sight) }
        ensures own { IfOk result (λ answer. own pass.new ≡ own pass.old ++ strike_answer pass.old.caller candidate answer ∷ []) }
        ensures mine { OnOk result (AddsMark (Strike pass.old.caller candidate) pass.old.mine pass.new.mine) }
        ensures refused { OnErr result (own pass.new ≡ own pass.old) }
        ensures nothing_made { OnErr result (pass.new.mine ≡ pass.old.mine) }
    {
        let caller = pass.desk.caller;
        strike(
            rt,
            &self.register,
            &mut pass.desk.register,
            caller,
            self.candidates,
            candidate,
        )
    }

    /// Freezes what stands, for a pass: while all turns are held what is in each shard is copied
    /// into a plan, with the list of the struck, and the freeze is marked. Where much stands the office's
    /// workers make the plans, each those of some shards, in threads of their own where such can be had.
    ///
    /// The pass has then seen all of one legal history that ends with its freeze, and the version is of
    /// it. After want of memory there is no mark of it, and the pass may have seen more.
    pub fn freeze<R: Threads + Wait + Sync>(
        &self,
        rt: &R,
        alloc: Global,
        pass: &mut Pass,
    ) -> Result<Version, NoMemory>
        requires office { pass.old.office ≡ self.now }
        ensures office { pass.new.office ≡ pass.old.office }
        ensures caller { pass.new.caller ≡ pass.old.caller }
        ensures goes_on { GoesOn pass.old.sight pass.new.sight }
        ensures frozen { IfOk result (λ version. IsFreeze self.now.shards pass.old.caller version pass.old.sight pass.new.sight) }
        ensures candidates { IfOk result (λ version. version.candidates ≡ self.now.candidates) }
        ensures own { OnOk result (own pass.new ≡ own pass.old ++ freeze_entry pass.old.caller ∷ []) }
        ensures mine { OnOk result (AddsMark (Freeze pass.old.caller) pass.old.mine pass.new.mine) }
        ensures refused { OnErr result (own pass.new ≡ own pass.old) }
        ensures nothing_made { OnErr result (pass.new.mine ≡ pass.old.mine) }
    {
        freeze(rt, alloc, self, &mut pass.desk)
    }

    /// Freezes what stands, for the clerk, as a pass of caller 0 would.
    pub fn clerk_freeze<R: Threads + Wait + Sync>(
        &self,
        rt: &R,
        alloc: Global,
        clerk: &mut Clerk,
    ) -> Result<Version, NoMemory>
        requires office { clerk.old.desk.office ≡ self.now }
        ensures office { clerk.new.desk.office ≡ clerk.old.desk.office }
        ensures caller { clerk.new.desk.caller ≡ clerk.old.desk.caller }
        ensures taken { clerk.new.taken ≡ clerk.old.taken }
        ensures last { clerk.new.last_caller ≡ clerk.old.last_caller }
        ensures open_teams { clerk.new.open_teams ≡ clerk.old.open_teams }
        ensures goes_on { GoesOn clerk.old.desk.sight clerk.new.desk.sight }
        ensures frozen { IfOk result (λ version. IsFreeze self.now.shards 0 version clerk.old.desk.sight clerk.new.desk.sight) }
        ensures candidates { IfOk result (λ version. version.candidates ≡ self.now.candidates) }
        ensures own { OnOk result (own clerk.new.desk ≡ own clerk.old.desk ++ freeze_entry 0 ∷ []) }
        ensures mine { OnOk result (AddsMark (Freeze 0) clerk.old.desk.mine clerk.new.desk.mine) }
        ensures refused { OnErr result (own clerk.new.desk ≡ own clerk.old.desk) }
        ensures nothing_made { OnErr result (clerk.new.desk.mine ≡ clerk.old.desk.mine) }
    {
        freeze(rt, alloc, self, &mut clerk.desk)
    }

    /// Closes the office, once all passes were taken in, and gives its history: it goes on from all that
    /// the clerk and the passes had seen, and has their calls and no others. After want of memory the
    /// marks and entries that the office held come back, with all that the clerk stood for.
    pub fn close(self, alloc: Global, clerk: Clerk) -> Result<History, CloseBack>
        requires office { clerk.desk.office ≡ self }
        requires alone { clerk.open_teams ≡ 0 }
        ensures closed { IfOk result (λ history. IsClosed clerk history) }
        ensures back { IfErr result (λ back. back.rest.clerk ≡ clerk) }
        ensures rest { IfErr result (λ back. HoldsAll clerk back.rest.marks (list_of back.rest.lists)) }
    {
        ended(self, alloc, clerk).finish(alloc)
    }
}

/// Ends all locks of an office, and takes out what lay behind them.
fn ended(office: Office, alloc: Global, clerk: Clerk) -> Closing
    requires office { clerk.desk.office ≡ office }
    requires alone { clerk.open_teams ≡ 0 }
    ensures { result.clerk ≡ clerk }
{
    let about = Snapshot::of(&clerk);
    let Clerk {
        desk,
        mut lists,
        ..
    } = clerk;
    let Desk {
        shards,
        register,
        ..
    } = desk;
    let Office {
        shards: number,
        candidates,
        windows,
        register: lock,
        ..
    } = office;
    let mut kept = lock.close(register);
    kept.vouch();
    end_all(windows, shards, &mut kept, &mut lists, number, candidates);
    Closing {
        clerk: about,
        kept,
        lists: EntryLists::new(alloc),
        rest: lists,
    }
}
