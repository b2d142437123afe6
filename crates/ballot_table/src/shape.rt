// What the texts of a head say together.
ghost use Rattle.std.specs.Prelude.{◌≡◌, ◌<◌, ◌^◌, ◌||◌, length};
ghost use Rattle.std.specs.List.{list_all};
ghost use Rattle.std.specs.Option.{is_some};
ghost use Rattle.ballot_table.specs.Asked.{asked_of};
ghost use Rattle.ballot_table.specs.Finding.{IsShape};
ghost use Rattle.ballot_table.specs.Head.{heads_say_ranks, may_be_rank, unlabelled};
ghost use Rattle.ballot_table.specs.Texts.{is_in, said_number};

use crate::said_number::says_number;
use crate::{TableAsked, Text};

/// What the texts of a head say together.
#[derive(Clone, Copy)]
pub(crate) struct Shape<'a> {
    pub texts: &'a [Text],
    /// How many are no labels.
    pub others: u32,
    /// Each of these says a rank.
    pub say_ranks: bool,
    /// Each of these is a number, or what the cell of a candidate may say.
    pub may_be_ranks: bool,
}

impl<'a> Shape<'a> {
    pub fn of(asked: &TableAsked, texts: &'a [Text]) -> Shape<'a>
        requires { length texts.now < 2 ^ 31 }
        ensures texts { result.texts.now ≡ texts.now }
        ensures shape { IsShape (asked_of asked.now) texts.now result }
    {
        Shape {
            texts,
            others: others(asked, texts),
            say_ranks: say_ranks(asked, texts),
            may_be_ranks: may_be_ranks(asked, texts),
        }
    }
}

fn others(asked: &TableAsked, texts: &[Text]) -> u32
    requires { length texts.now < 2 ^ 31 }
    ensures { result ≡ length (unlabelled (asked_of asked.now) texts.now) }
{
    let mut others = 0;
    for text in texts {
        if !asked.is_label(text.bytes()) {
            others += 1;
        }
    }
    others
}

#[tactic(auto, using(crate::proofs::ShapeLemmas::all_unlabelled))]
fn say_ranks(asked: &TableAsked, texts: &[Text]) -> bool
    ensures { result ≡ heads_say_ranks (asked_of asked.now) texts.now }
{
    asked.are_by_heads() && each_says_rank(asked, texts)
}

fn each_says_rank(asked: &TableAsked, texts: &[Text]) -> bool
    ensures { result ≡ list_all (λ text. is_in asked.now.labels text || is_some (said_number text)) texts.now }
{
    texts.iter().all(|text| is_label_or_rank(asked, text))
}

fn is_label_or_rank(asked: &TableAsked, text: &Text) -> bool
    ensures { result ≡ (is_in asked.now.labels text.now || is_some (said_number text.now)) }
{
    asked.is_label(text.bytes()) || says_number(text.bytes())
}

#[tactic(auto, using(crate::proofs::ShapeLemmas::all_unlabelled))]
fn may_be_ranks(asked: &TableAsked, texts: &[Text]) -> bool
    ensures { result ≡ list_all (may_be_rank (asked_of asked.now)) (unlabelled (asked_of asked.now) texts.now) }
{
    each_may_be_rank(asked, texts)
}

fn each_may_be_rank(asked: &TableAsked, texts: &[Text]) -> bool
    ensures { result ≡ list_all (λ text. is_in asked.now.labels text || may_be_rank (asked_of asked.now) text) texts.now }
{
    texts
        .iter()
        .all(|text| is_label_or_may_be_rank(asked, text))
}

fn is_label_or_may_be_rank(asked: &TableAsked, text: &Text) -> bool
    ensures { result ≡ (is_in asked.now.labels text.now || may_be_rank (asked_of asked.now) text.now) }
{
    asked.is_label(text.bytes()) || asked.may_be_rank(text.bytes())
}
