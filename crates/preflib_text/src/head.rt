// What the metadata of a text say.
ghost use Rattle.std.specs.Prelude.{◌≡◌, ◌+◌, ◌<◌, ◌≤◌, ◌==◌, ◌||◌, ◌++◌, ◌∷◌, [], nat_lt, true, length, map, position, unwrap_or};
ghost use Rattle.std.specs.Prelude.{Some, None, is_none, OnOk, IfOk, IfErr, IfSome};
ghost use Rattle.std.specs.List.{list_any, range_with_len};
ghost use Rattle.std.specs.Option.{option_map, option_map_or, option_or};
ghost use Rattle.preflib_text.specs.declared.pref_stop.PrefStop.TheVariants.{NoMemory as no_memory};
ghost use Rattle.plain_ballots.specs.declared.limits.TheConstants.{MOST_CANDIDATES};
ghost use Rattle.preflib_text.specs.Ballots.{is_metadata, entries_of};
ghost use Rattle.preflib_text.specs.Faults.{first_of};
ghost use Rattle.preflib_text.specs.Heading.{front, AreBehind};
ghost use Rattle.preflib_text.specs.Known.{nothing, found, is_said, with_said, seen_key, key_seen, fault_behind, line_fault};
ghost use Rattle.preflib_text.specs.Known.{known_fault, IsKnown};
ghost use Rattle.preflib_text.specs.Metadata.{entry_of, is_few};
ghost use Rattle.preflib_text.specs.Refusals.{metadata_faults};
ghost use Rattle.preflib_text.specs.Stops.{IsPrefStop};

use crate::entry::{Entry, Key};
use crate::entry_value::value_fault;
use crate::line::Line;
use crate::lines::Lines;
use crate::named::Named;
use crate::numeral::number;
use crate::{PrefAsked, PrefFault, PrefKind, PrefStop};
use candidate_roll::{MOST_TITLE_BYTES, Name, Names};
use plain_ballots::NoMemory;
use std::alloc::Global;
use std::marker::Model;

/// What the metadata say that are read so far. Numbers above the most ballots are all the next one.
#[derive(Drop)]
pub(crate) struct Head<'a> {
    candidates: Option<u32>,
    voters: Option<u32>,
    title: Option<&'a [u8]>,
    names: Vec<Named<'a>>,
}

impl<'a> Model for Head<'a> {
    ghost use Rattle.std.specs.Option.{option_map};
    ghost use Rattle.preflib_text.specs.Known.{Known};

    ghost Value = { Known };

    ghost view = { λ h. record {
      candidates = h.candidates;
      voters = h.voters;
      title = option_map (λ title. title.now) h.title;
      names = h.names.items;
    } };
}

impl<'a> Head<'a> {
    fn new(alloc: Global) -> Head<'a>
        ensures { result ≡ nothing }
    {
        Head {
            candidates: None,
            voters: None,
            title: None,
            names: Vec::new(alloc),
        }
    }

    /// What the lines of metadata say that come next.
    pub fn read(
        alloc: Global,
        asked: &PrefAsked<'_>,
        lines: &mut Lines<'a>,
    ) -> Result<Head<'a>, PrefStop>
        ensures sound { OnOk result (first_of (metadata_faults asked.now (front lines.old.rest)) ≡ None) }
        ensures stop { IfErr result (IsPrefStop (first_of (metadata_faults asked.now (front lines.old.rest)))) }
        ensures known { IfOk result (IsKnown (entries_of (front lines.old.rest))) }
        ensures behind { OnOk result (AreBehind lines.old lines.new) }
    {
        let mut head = Head::new(alloc);
        while let Some(line) = lines.next_metadata() {
            head.take(asked, &line)?;
        }
        Ok(head)
    }

    /// Takes a line of metadata.
    fn take(&mut self, asked: &PrefAsked<'_>, line: &Line<'a>) -> Result<(), PrefStop>
        requires { is_metadata line.now ≡ true }
        ensures ok { OnOk result (self.new ≡ with_said self.old (key_seen (entry_of line.now.bytes)) (entry_of line.now.bytes).value) }
        ensures sound { OnOk result (line_fault asked.now self.old line.now ≡ None) }
        ensures stop { IfErr result (IsPrefStop (line_fault asked.now self.old line.now)) }
    {
        if let Some(fault) = line.form() {
            return Err(PrefStop::Fault(fault));
        }
        let entry = Entry::of(line.bytes());
        if let Some(kind) = self.fault(asked, entry.key, entry.value) {
            return Err(PrefStop::Fault(line.fault(kind, entry.at)));
        }
        self.keep(entry.key, entry.value)
    }

    /// Why this can't be said of a key next.
    fn fault(&self, asked: &PrefAsked<'_>, key: Key, value: &[u8]) -> Option<PrefKind>
        ensures { result ≡ fault_behind asked.now self.now (seen_key key) value.now }
    {
        if self.has(key) {
            return Some(PrefKind::Repeated);
        }
        value_fault(asked, self.candidates, key, value)
    }

    /// Whether this is said already.
    fn has(&self, key: Key) -> bool
        ensures { result ≡ is_said self.now (seen_key key) }
    {
        match key {
            Key::Alternatives => self.candidates.is_some(),
            Key::Voters => self.voters.is_some(),
            Key::Title => self.title.is_some(),
            Key::Name(Some(n)) => self.name(n).is_some(),
            Key::Name(None) | Key::Other => false,
        }
    }

    /// The name that is given of a candidate.
    fn name(&self, n: u32) -> Option<&'a [u8]>
        ensures { option_map (λ name. name.now) result ≡ found self.now.names n }
    {
        match self.names.iter().find(|named| named.number == n) {
            Some(named) => Some(named.name),
            None => None,
        }
    }

    /// Keeps what is said of a key.
    fn keep(&mut self, key: Key, value: &'a [u8]) -> Result<(), PrefStop>
        ensures ok { OnOk result (self.new ≡ with_said self.old (seen_key key) value.now) }
        ensures stop { IfErr result (λ stop. stop ≡ no_memory) }
    {
        match key {
            Key::Alternatives => {
                self.candidates = number(value);
                Ok(())
            }
            Key::Voters => {
                self.voters = number(value);
                Ok(())
            }
            Key::Title => {
                self.title = Some(value);
                Ok(())
            }
            Key::Name(Some(n)) => self.keep_name(n, value),
            Key::Name(None) | Key::Other => Ok(()),
        }
    }

    fn keep_name(&mut self, n: u32, name: &'a [u8]) -> Result<(), PrefStop>
        ensures ok { OnOk result (self.new ≡ record self.old { names = self.old.names ++ record { number = n; name = name.now } ∷ [] }) }
        ensures stop { IfErr result (λ stop. stop ≡ no_memory) }
    {
        match self.names.push(Named { number: n, name }) {
            Ok(()) => Ok(()),
            Err(_) => Err(PrefStop::NoMemory),
        }
    }

    /// How many candidates there are, each with a name and each of the withdrawn among them, where the
    /// metadata end before a line.
    pub fn whole(&self, asked: &PrefAsked<'_>, line: &Line<'_>) -> Result<u32, PrefFault>
        requires { option_map_or is_few self.now.candidates true ≡ true }
        ensures ok { IfOk result (λ n. self.now.candidates ≡ Some n) }
        ensures sound { OnOk result (known_fault asked.now self.now line.now ≡ None) }
        ensures stop { IfErr result (λ fault. known_fault asked.now self.now line.now ≡ Some fault) }
    {
        let n = match self.candidates {
            Some(n) if n > 0 => n,
            _ => return Err(line.fault(PrefKind::BadHeader, 0)),
        };
        if self.lacks_name(n) {
            return Err(line.fault(PrefKind::NameExpected, 0));
        }
        match bad_withdrawn(asked.withdrawn, n) {
            Some(i) => Err(PrefFault::Word {
                kind: PrefKind::BadWithdrawn,
                place: i + 1,
            }),
            None => Ok(n),
        }
    }

    fn lacks(&self, c: u32) -> bool
        ensures { result ≡ is_none (found self.now.names c) }
    {
        self.name(c).is_none()
    }

    /// Whether one of so many candidates has no name.
    fn lacks_name(&self, candidates: u32) -> bool
        requires { candidates ≤ MOST_CANDIDATES }
        ensures { result ≡ list_any (λ c. is_none (found self.now.names c)) (range_with_len 1 candidates) }
    {
        for c in 1..candidates + 1 {
            if self.lacks(c) {
                return true;
            }
        }
        false
    }

    /// The names of so many candidates.
    pub fn names(&self, alloc: Global, candidates: u32) -> Result<Names, NoMemory>
        requires { candidates ≤ MOST_CANDIDATES }
        ensures { IfOk result (λ names. names ≡ map (λ c. unwrap_or (found self.now.names c) []) (range_with_len 1 candidates)) }
    {
        let mut names = Names::new(alloc);
        for c in 1..candidates + 1 {
            push_name(alloc, &mut names, self.name_or_none(c))?;
        }
        Ok(names)
    }

    fn name_or_none(&self, c: u32) -> &'a [u8]
        ensures { result.now ≡ unwrap_or (found self.now.names c) [] }
    {
        match self.name(c) {
            Some(name) => name,
            None => &[],
        }
    }

    /// The title of the words, or else of the text, or none.
    pub fn title(
        &self,
        alloc: Global,
        asked: &PrefAsked<'_>,
    ) -> Result<Name<MOST_TITLE_BYTES>, NoMemory>
        ensures { IfOk result (λ title. title ≡ unwrap_or (option_or asked.now.title self.now.title) []) }
    {
        let copied = match asked.title {
            Some(title) => Name::try_new(alloc, title.bytes()),
            None => Name::try_new(alloc, self.title.unwrap_or(&[])),
        };
        match copied {
            Ok(title) => Ok(title),
            Err(_) => Err(NoMemory),
        }
    }

    /// The number of voters, if it is said.
    pub fn voters(&self) -> Option<u32>
        ensures { result ≡ self.now.voters }
    {
        self.voters
    }
}

/// The first number that none of so many candidates has.
fn bad_withdrawn(withdrawn: &[u32], candidates: u32) -> Option<usize>
    ensures place { result ≡ position (λ c. c == 0 || nat_lt candidates c) withdrawn.now }
    ensures inside { IfSome result (λ place. place < length withdrawn.now) }
{
    withdrawn.iter().position(|c| *c == 0 || *c > candidates)
}

fn push_name(alloc: Global, names: &mut Names, name: &[u8]) -> Result<(), NoMemory>
    ensures ok { OnOk result (names.new ≡ names.old ++ name.now ∷ []) }
{
    match Name::try_new(alloc, name) {
        Ok(name) => match names.push(name) {
            Ok(()) => Ok(()),
            Err(_) => Err(NoMemory),
        },
        Err(_) => Err(NoMemory),
    }
}
