// The versions of a day.
ghost use Rattle.std.specs.Prelude.{◌≡◌, ◌<◌, ◌↔◌, [], ◌∷◌, ◌++◌, length, reverse, slice_get, Some, OnOk, OnErr, IfErr, IfSome, IfNone, IsNone};

use crate::PushBack;
use shard_office::Version;
use std::alloc::Global;
use std::marker::Model;

/// Versions of freezes.
#[derive(Debug, Drop)]
pub struct Versions {
    pub(crate) list: Vec<Version>,
}

impl Model for Versions {
    ghost use Rattle.std.specs.Prelude.{List};
    ghost use Rattle.frozen_version.specs.Versions.{VersionState};

    ghost Value = { List VersionState };

    ghost view = { λ versions. versions.list.items };
}

impl Versions {
    /// No versions. The allocator serves each later `push`.
    pub fn new(alloc: Global) -> Versions
        ensures { result ≡ [] }
    {
        Versions {
            list: Vec::new(alloc),
        }
    }

    /// Puts a version after the others.
    pub fn push(&mut self, item: Version) -> Result<(), PushBack<Version>>
        ensures ok { OnOk result (self.new ≡ self.old ++ item ∷ []) }
        ensures refused { OnErr result (self.new ≡ self.old) }
        ensures handed_back { IfErr result (λ back. back.item ≡ item) }
    {
        match self.list.push(item) {
            Ok(()) => Ok(()),
            Err(failed) => Err(PushBack { item: failed.value }),
        }
    }

    /// Takes the last version out.
    pub fn pop(&mut self) -> Option<Version>
        ensures last { IfSome result (λ item. self.old ≡ self.new ++ item ∷ []) }
        ensures empty { IsNone result ↔ (self.old ≡ []) }
        ensures kept { IfNone result (self.new ≡ self.old) }
    {
        self.list.pop()
    }

    /// Turns the order round.
    pub fn reverse(&mut self)
        ensures { self.new ≡ reverse self.old }
    {
        self.list.reverse();
    }

    /// The versions as a plain list.
    pub fn into_items(self) -> Vec<Version>
        ensures { result.items ≡ self }
    {
        self.list
    }

    pub fn len(&self) -> usize
        ensures { result ≡ length self.now }
    {
        self.list.len()
    }

    pub fn items(&self) -> &[Version]
        ensures { result.now ≡ self.now }
    {
        self.list.as_slice()
    }

    pub fn get(&self, i: usize) -> &Version
        requires { i < length self.now }
        ensures { slice_get self.now i ≡ Some result.now }
    {
        &self.list[i]
    }
}
