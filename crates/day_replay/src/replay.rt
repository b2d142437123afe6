// An office that is called by one caller after another.
ghost use Rattle.std.specs.Prelude.{◌≡◌, ◌<◌, ◌≤◌, ◌^◌, [], All, OnOk, length};
ghost use Rattle.plain_ballots.specs.declared.limits.TheConstants.{MOST_CANDIDATES};
ghost use Rattle.day_reader.specs.Said.{IsAnswerable};
ghost use Rattle.day_replay.specs.Replay.{IsLedOn};

use crate::NoMemory;
use crate::bare::bare_call;
use batch_core::{Book, Call, Entries, Entry, a_book_answers_a_history};
use call_register::History;
use std::alloc::Global;
use std::marker::Model;

/// The plain book without ballots, which has the replies of the book with them, and all answered calls.
#[derive(Drop)]
pub(crate) struct Replay {
    book: Book,
    entries: Entries,
}

impl Model for Replay {
    ghost use Rattle.day_replay.specs.Replay.{ReplayState, IsReplay};

    ghost Value = { ReplayState };

    ghost view = { λ r. record { candidates = r.book.candidates; history = r.entries.items } };

    ghost invariant = { λ r. IsReplay r.book r.entries.items };
}

impl Replay {
    /// An office of so many candidates, before the first call.
    pub fn new(alloc: Global, candidates: u32) -> Replay
        requires { (1 ≤ candidates) × (candidates ≤ MOST_CANDIDATES) }
        ensures { result ≡ record { candidates = candidates; history = [] } }
    {
        Replay {
            book: Book::new(alloc, candidates),
            entries: Entries::new(alloc),
        }
    }

    /// Answers the next call.
    pub fn answer(&mut self, alloc: Global, caller: u32, asked: Call) -> Result<(), NoMemory>
        requires { IsAnswerable self.old.candidates asked }
        ensures { OnOk result (IsLedOn caller asked self.old self.new) }
    {
        a_book_answers_a_history();
        self.entries.reserve(1)?;
        let reply = self.book.step(bare_call(alloc, &asked))?;
        self.entries.push_reserved(Entry {
            caller,
            call: asked,
            reply,
        });
        Ok(())
    }

    /// The number of calls.
    pub fn calls(&self) -> u64
        ensures calls { result ≡ length self.now.history }
        ensures few { result < 2 ^ 63 }
    {
        self.entries.items().len() as u64
    }

    /// The history of all calls.
    pub fn finish(self) -> History
        ensures history { result ≡ self.history }
        ensures answerable { All (λ e. IsAnswerable self.candidates e.call) result }
    {
        History::from_entries(self.entries)
    }
}
