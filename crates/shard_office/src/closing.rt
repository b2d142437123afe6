// What a closed office leaves, until its history is made.
ghost use Rattle.std.specs.Prelude.{◌≡◌, ◌<◌, ◌++◌, ◌∷◌, [], vec_len, vec_capacity, IfOk, IfErr, OnOk, OnErr};
ghost use Rattle.call_register.specs.Weaving.{list_of, weave};
ghost use Rattle.shard_office.specs.Closing.{IsClosed};

use crate::clerk::Clerk;
use crate::close_back::CloseBack;
use crate::no_memory::NoMemory;
use crate::register_value::RegisterValue;
use batch_core::Entries;
use call_register::{EntryLists, History, PushBack, WeaveBack, weave};
use std::alloc::Global;
use std::marker::Model;
use std::snapshot::Snapshot;

/// What an office held when it was closed, whose history is still to be made. Contracts see its marks,
/// the entries of its shards, and all that its clerk stood for.
#[derive(Drop)]
pub struct Closing {
    pub(crate) clerk: Snapshot<Clerk>,
    pub(crate) kept: RegisterValue,
    pub(crate) lists: EntryLists,
    pub(crate) rest: Vec<Entries>,
}

impl Model for Closing {
    ghost use Rattle.std.specs.Prelude.{◌++◌, reverse};
    ghost use Rattle.call_register.specs.Weaving.{list_of};
    ghost use Rattle.shard_office.specs.Closing.{ClosingState, HoldsAll};

    ghost Value = { ClosingState };

    ghost view = { λ c. record { clerk = c.clerk.value; marks = c.kept.register.marks; lists = c.lists ++ reverse c.rest.items } };

    ghost invariant = { λ c. HoldsAll c.clerk.value c.kept.register.marks (list_of (c.lists ++ reverse c.rest.items)) };
}

impl Closing {
    /// Weaves the history of the marks and entries. After want of memory the closing comes back as it
    /// was, and may be tried again and again.
    pub fn finish(self, alloc: Global) -> Result<History, CloseBack>
        ensures closed { IfOk result (λ history. IsClosed self.clerk history) }
        ensures woven { IfOk result (λ history. history ≡ weave self.marks (list_of self.lists)) }
        ensures back { IfErr result (λ back. back.rest ≡ self) }
    {
        let Closing {
            clerk,
            kept,
            mut lists,
            mut rest,
        } = self;
        while let Some(item) = rest.pop() {
            let Ok(()) = hand_over(item, &mut rest, &mut lists) else {
                return Err(CloseBack {
                    rest: Closing {
                        clerk,
                        kept,
                        lists,
                        rest,
                    },
                });
            };
        }
        match weave(alloc, kept.register.marks(), lists) {
            Ok(history) => Ok(history),
            Err(WeaveBack { lists }) => Err(CloseBack {
                rest: Closing {
                    clerk,
                    kept,
                    lists,
                    rest,
                },
            }),
        }
    }
}

/// Puts a list after the others, or back where it came from.
fn hand_over(item: Entries, rest: &mut Vec<Entries>, lists: &mut EntryLists) -> Result<(), NoMemory>
    requires { vec_len rest.old < vec_capacity rest.old }
    ensures rest { OnOk result (rest.new ≡ rest.old) }
    ensures lists { OnOk result (lists.new ≡ lists.old ++ item ∷ []) }
    ensures put_back { OnErr result (rest.new.items ≡ rest.old.items ++ item ∷ []) }
    ensures refused { OnErr result (lists.new ≡ lists.old) }
{
    match lists.push(item) {
        Ok(()) => Ok(()),
        Err(PushBack { item }) => {
            rest.push_reserved(item);
            Err(NoMemory)
        }
    }
}
