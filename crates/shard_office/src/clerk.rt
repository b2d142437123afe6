// Who makes an office's passes and takes them in.
ghost use Rattle.std.specs.Prelude.{◌≡◌, ◌+◌, ◌<◌, ◌++◌, ◌∷◌, [], ℕ, Some, slice_get, OnOk, OnErr, IfOk};
ghost use Rattle.shard_office.specs.Passes.{own, PassState};
ghost use Rattle.shard_office.specs.Sight.{GoesOn, nothing_of};
ghost use Rattle.shard_office.specs.Clerk.{IsTaken};

use crate::desk::Desk;
use crate::meeting::{join_all, split_all};
use crate::no_memory::NoMemory;
use crate::office::Office;
use crate::pass::Pass;
use batch_core::Entries;
use std::alloc::Global;
use std::marker::Model;
use std::snapshot::Snapshot;

/// The clerk of an office makes passes for callers and takes them in. Contracts see it as a pass of
/// caller 0, its desk, with the passes that it took in, as they were then, the greatest number given
/// and the number of passes that are out.
#[derive(Drop)]
pub struct Clerk {
    pub(crate) desk: Desk,
    pub(crate) last: u32,
    pub(crate) teams: u32,
    pub(crate) taken: Vec<Snapshot<Pass>>,
    pub(crate) lists: Vec<Entries>,
}

impl Model for Clerk {
    ghost use Rattle.std.specs.Prelude.{◌≡◌, ◌+◌, ◌≤◌, [], map, vec_len, vec_capacity};
    ghost use Rattle.shard_office.specs.Desks.{pass_at};
    ghost use Rattle.shard_office.specs.Clerk.{ClerkState, AreFirst};

    ghost Value = { ClerkState };

    ghost view = { λ c. record {
      desk = pass_at c.desk;
      taken = map (λ t. t.value) c.taken.items;
      last_caller = c.last;
      open_teams = c.teams;
    } };

    ghost invariant = { λ c.
        AreFirst c.desk.office.value c.last c.teams (map (λ t. t.value) c.taken.items) c.desk.shards.items c.desk.register
        × (c.desk.caller ≡ 0)
        × (c.teams + vec_len c.taken ≤ vec_capacity c.taken)
        × (c.lists.items ≡ [])
        × (c.desk.office.value.shards ≤ vec_capacity c.lists) };
}

impl Clerk {
    /// The greatest number given to a pass, or 0.
    pub fn last_caller(&self) -> u32
        ensures { result ≡ self.now.last_caller }
    {
        self.last
    }

    /// How many passes are out. Of those that were taken in the clerk has seen all that they had seen,
    /// and each had seen the marks of its own entries.
    pub fn open_teams(&self) -> u32
        ensures open { result ≡ self.now.open_teams }
        ensures caller { self.now.desk.caller ≡ 0 }
        ensures taken { (k : ℕ) (q : PassState) → slice_get self.now.taken k ≡ Some q → IsTaken self.now.desk.office self.now.desk.sight q }
    {
        self.teams
    }

    /// A new pass, with a number above all given before. It has seen what the clerk has seen, and has
    /// no calls. After want of memory there is none, and the clerk is as it was.
    pub fn team(&mut self, alloc: Global, office: &Office, caller: u32) -> Result<Pass, NoMemory>
        requires office { self.old.desk.office ≡ office.now }
        requires caller { self.old.last_caller < caller }
        ensures desk { self.new.desk ≡ self.old.desk }
        ensures taken { self.new.taken ≡ self.old.taken }
        ensures made { IfOk result (λ pass. pass ≡ record { office = office.now; caller = caller; sight = self.old.desk.sight; mine = nothing_of self.old.desk.sight }) }
        ensures own { IfOk result (λ pass. own pass ≡ []) }
        ensures last { OnOk result (self.new.last_caller ≡ caller) }
        ensures open_teams { OnOk result (self.new.open_teams ≡ self.old.open_teams + 1) }
        ensures refused { OnErr result (self.new ≡ self.old) }
    {
        self.taken.reserve(self.teams as usize + 1)?;
        let mut shards = Vec::with_capacity(alloc, office.windows.len())?;
        split_all(&office.windows, &mut self.desk.shards, caller, &mut shards);
        let register = office.register.split(&mut self.desk.register, caller);
        self.last = caller;
        self.teams += 1;
        let desk = Desk {
            office: Snapshot::of(office),
            caller,
            shards,
            register,
        };
        Ok(Pass { desk })
    }

    /// Takes a pass in. The clerk has then seen all that either had seen; its own calls stay, and so do
    /// the passes taken in before.
    pub fn take_in(&mut self, office: &Office, pass: Pass)
        requires office { (self.old.desk.office ≡ office.now) × (pass.office ≡ office.now) }
        ensures office { self.new.desk.office ≡ self.old.desk.office }
        ensures caller { self.new.desk.caller ≡ self.old.desk.caller }
        ensures goes_on { GoesOn self.old.desk.sight self.new.desk.sight }
        ensures begins { GoesOn pass.sight self.new.desk.sight }
        ensures own { own self.new.desk ≡ own self.old.desk }
        ensures mine { self.new.desk.mine ≡ self.old.desk.mine }
        ensures taken { self.new.taken ≡ self.old.taken ++ pass ∷ [] }
        ensures last { self.new.last_caller ≡ self.old.last_caller }
        ensures open_teams { self.new.open_teams + 1 ≡ self.old.open_teams }
    {
        let about = Snapshot::of(&pass);
        let Pass { desk } = pass;
        let Desk {
            shards,
            register,
            ..
        } = desk;
        join_all(&office.windows, &mut self.desk.shards, shards);
        office.register.join(&mut self.desk.register, register);
        self.teams -= 1;
        self.taken.push_reserved(about);
    }
}
