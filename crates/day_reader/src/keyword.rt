// The words of day files.
ghost use Rattle.std.specs.Prelude.{◌≡◌, Ok, Err, IfSome, IfNone};
ghost use Rattle.input_text.specs.declared.fault_kind.FaultKind.TheVariants.{WordExpected};
ghost use Rattle.day_reader.specs.Keyword.{keyword_of};

/// A word of a day file. The laws on texts that are read back speak of them.
#[derive(Clone, Copy, Debug, PartialEq, Eq)]
pub enum Keyword {
    Lots,
    Places,
    Omega,
    Team,
    Enter,
    Correct,
    Withdraw,
    Strike,
    Freeze,
    End,
}

impl Keyword {
    #[tactic(auto, unfolding(crate::specs::Keyword::keyword_of))]
    pub(crate) fn from_letters(letters: &[u8]) -> Option<Keyword>
        ensures known { IfSome result (λ keyword. keyword_of letters.now ≡ Ok keyword) }
        ensures unknown { IfNone result (keyword_of letters.now ≡ Err WordExpected) }
    {
        if letters == b"lots".as_slice() {
            Some(Keyword::Lots)
        } else if letters == b"places".as_slice() {
            Some(Keyword::Places)
        } else if letters == b"omega".as_slice() {
            Some(Keyword::Omega)
        } else if letters == b"team".as_slice() {
            Some(Keyword::Team)
        } else if letters == b"enter".as_slice() {
            Some(Keyword::Enter)
        } else if letters == b"correct".as_slice() {
            Some(Keyword::Correct)
        } else if letters == b"withdraw".as_slice() {
            Some(Keyword::Withdraw)
        } else if letters == b"strike".as_slice() {
            Some(Keyword::Strike)
        } else if letters == b"freeze".as_slice() {
            Some(Keyword::Freeze)
        } else if letters == b"end".as_slice() {
            Some(Keyword::End)
        } else {
            None
        }
    }
}
