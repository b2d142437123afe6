// What the words say of a table.
ghost use Rattle.std.specs.Prelude.{◌≡◌, ◌≤◌, ◌<◌, ◌^◌, ◌↔◌, length, IsTrue};
ghost use Rattle.plain_ballots.specs.declared.limits.TheConstants.{MOST_CANDIDATES};
ghost use Rattle.ballot_table.specs.Cells.{is_blank, rank_in, says_in};
ghost use Rattle.ballot_table.specs.Finding.{among};
ghost use Rattle.ballot_table.specs.Head.{are_by_heads, are_chosen, chosen_column, name_of, labelled, may_be_rank};
ghost use Rattle.std.specs.Result.{is_ok};
ghost use Rattle.ballot_table.specs.Asked.{asked_of};
ghost use Rattle.ballot_table.specs.PlainRows.{HasPlainRanks};
ghost use Rattle.ballot_table.specs.Texts.{is_in, number_in};

use crate::among::{is_in, name_in, number_in};
use crate::brackets::bracketed;
use crate::numeral::{Numeral, are_digits, numeral_in};
use crate::{Column, Empty, Layout, Numbers, TableKind, Text, Texts};
use ballot_marks::{Says, Treatment};
use candidate_roll::Names;
use plain_ballots::MOST_CANDIDATES;

/// What the words say of a table.
#[derive(Debug, Drop)]
pub struct TableAsked {
    pub layout: Layout,
    /// The byte between two fields; where none is said, the head shows it.
    pub separator: Option<u8>,
    /// There is a head, whatever is in it, or there is none.
    pub head_is_said: bool,
    /// So many records are the head. Where it is none, the columns are named by their numbers.
    pub heads: u32,
    /// The candidates stand in brackets at the end of the head's fields.
    pub bracketed: bool,
    /// The heads of the weight's column, of those that are passed over and of those that are read, in the order of the words.
    pub labels: Texts,
    /// Of choices the heads of the columns that are read, in order of rank; where there are none, all are that have no label.
    pub chosen: Texts,
    pub weight: Option<Text>,
    /// What blank cells say.
    pub blank: Texts,
    /// What stands for more than one candidate.
    pub over: Texts,
    /// What stands for the ranks from the first on; where there are none, ranks are numbers.
    pub ranks: Texts,
    /// The candidates in number order, where the head doesn't name them.
    pub candidates: Names,
    /// Numbers of candidates as they were typed.
    pub withdrawn: Numbers,
    pub empty: Empty,
    pub treatment: Treatment,
}

impl TableAsked {
    pub(crate) fn is_label(&self, text: &[u8]) -> bool
        ensures { result ≡ is_in self.now.labels text.now }
    {
        is_in(self.labels.items(), text)
    }

    /// The column of a label.
    pub(crate) fn labelled(&self, text: &[u8]) -> Column
        requires { length self.now.chosen < 2 ^ 31 }
        ensures { result ≡ labelled (asked_of self.now) text.now }
    {
        match &self.weight {
            Some(label) if label.is(text) => Column::Weight,
            _ => self.chosen_column(text),
        }
    }

    /// The column of the rank that is a label's place among those that are read, or else one that is passed over.
    fn chosen_column(&self, text: &[u8]) -> Column
        requires { length self.now.chosen < 2 ^ 31 }
        ensures { result ≡ chosen_column (number_in self.now.chosen text.now) }
    {
        match number_in(self.chosen.items(), text) {
            Some(rank) => Column::Rank(rank as u32),
            None => Column::PassedOver,
        }
    }

    /// Whether the words name the columns of choices that are read.
    pub(crate) fn are_chosen(&self) -> bool
        ensures { result ≡ are_chosen self.now.layout self.now.chosen }
    {
        match self.layout {
            Layout::Choices => self.chosen.len() > 0,
            Layout::Ranks | Layout::List => false,
        }
    }

    /// Whether ranks are where heads say them.
    pub(crate) fn are_by_heads(&self) -> bool
        ensures { result ≡ are_by_heads (asked_of self.now) }
    {
        self.heads != 0 && !self.are_chosen()
    }

    /// The name that a head's text says.
    pub(crate) fn name_of<'t>(&self, text: &'t [u8]) -> &'t [u8]
        ensures { result.now ≡ name_of (asked_of self.now) text.now }
    {
        if self.bracketed {
            bracketed(text)
        } else {
            text
        }
    }

    fn is_blank(&self, text: &[u8]) -> bool
        ensures { result ≡ is_blank (asked_of self.now) text.now }
    {
        text.is_empty() || is_in(self.blank.items(), text)
    }

    /// Whether ranks are numbers in a column for each candidate, and no text but the empty one is blank.
    pub(crate) fn has_plain_ranks(&self) -> bool
        ensures { IsTrue result ↔ HasPlainRanks (asked_of self.now) }
    {
        match self.layout {
            Layout::Ranks => self.ranks.len() == 0 && self.blank.len() == 0,
            Layout::Choices | Layout::List => false,
        }
    }

    /// The rank in the cell of a candidate, if it isn't blank.
    pub(crate) fn rank_in(&self, text: &[u8]) -> Result<Option<usize>, TableKind>
        ensures { result ≡ rank_in (asked_of self.now) text.now }
    {
        if self.is_blank(text) {
            return Ok(None);
        }
        if self.ranks.len() == 0 {
            return match numeral_in(text, MOST_CANDIDATES) {
                Numeral::Number(rank) if rank > 0 => Ok(Some(rank as usize)),
                _ => Err(TableKind::BadRank),
            };
        }
        match number_in(self.ranks.items(), text) {
            Some(rank) => Ok(Some(rank)),
            None => Err(TableKind::BadRank),
        }
    }

    /// Whether a text is a number, or what the cell of a candidate may say.
    pub(crate) fn may_be_rank(&self, text: &[u8]) -> bool
        ensures { result ≡ may_be_rank (asked_of self.now) text.now }
    {
        are_digits(text) || self.rank_in(text).is_ok()
    }

    /// Whether the cell of a rank may say this.
    pub(crate) fn may_be_said(&self, text: &[u8]) -> bool
        requires { length self.now.candidates ≤ MOST_CANDIDATES }
        ensures { result ≡ is_ok (says_in (asked_of self.now) text.now) }
    {
        self.says_in(text).is_ok()
    }

    /// What the cell of a rank says, if it isn't blank.
    pub(crate) fn says_in(&self, text: &[u8]) -> Result<Option<Says>, TableKind>
        requires { length self.now.candidates ≤ MOST_CANDIDATES }
        ensures { result ≡ says_in (asked_of self.now) text.now }
    {
        if self.is_blank(text) {
            return Ok(None);
        }
        if is_in(self.over.items(), text) {
            return Ok(Some(Says::Over));
        }
        match self.candidate(text) {
            Some(candidate) => Ok(Some(Says::One(candidate))),
            None => Err(TableKind::NoSuchCandidate),
        }
    }

    /// The candidate of this name.
    fn candidate(&self, name: &[u8]) -> Option<u32>
        requires { length self.now.candidates ≤ MOST_CANDIDATES }
        ensures { result ≡ number_in self.now.candidates name.now }
    {
        match name_in(self.candidates.items(), name) {
            Some(place) => Some(place as u32 + 1),
            None => None,
        }
    }

    /// How many candidates there are, where the head has columns of so many.
    pub(crate) fn among(&self, columns: u32) -> u32
        requires { length self.now.candidates ≤ MOST_CANDIDATES }
        ensures { result ≡ among self.now.layout (length self.now.candidates) columns }
    {
        match self.layout {
            Layout::Ranks => columns,
            Layout::Choices | Layout::List => self.candidates.len() as u32,
        }
    }
}
