// What the words say besides the text.
ghost use Rattle.std.specs.Prelude.{◌≡◌};

use ballot_marks::Treat;
use candidate_roll::{MOST_TITLE_BYTES, Name};
use std::marker::Model;

/// What the words say besides a text of PrefLib.
#[derive(Drop)]
pub struct PrefAsked<'a> {
    /// In place of the text's title, which is then not judged.
    pub title: Option<&'a Name<MOST_TITLE_BYTES>>,
    /// Numbers as they were typed, which need not be candidates'.
    pub withdrawn: &'a [u32],
    /// What becomes of a rank that more than one candidate has.
    pub equal: Treat,
}

impl<'a> Model for PrefAsked<'a> {
    ghost use Rattle.std.specs.Option.{option_map};
    ghost use Rattle.preflib_text.specs.Asked.{Asked};

    ghost Value = { Asked };

    ghost view = { λ a. record {
      title = option_map (λ title. title.now) a.title;
      withdrawn = a.withdrawn.now;
      equal = a.equal;
    } };
}

impl<'a> PrefAsked<'a> {
    pub(crate) fn equal(&self) -> Treat
        ensures { result ≡ self.now.equal }
    {
        self.equal
    }
}
