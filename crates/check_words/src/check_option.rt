// The options.
ghost use Rattle.std.specs.Prelude.{◌≡◌, ◌≢◌, IfNone, IfSome};
ghost use Rattle.check_words.specs.Options.{flag_of};
ghost use Rattle.check_words.specs.declared.check_option.CheckOption.{CheckOption};

/// An option of the words.
#[derive(Clone, Copy)]
pub(crate) enum CheckOption {
    Lots,
    Rule,
    Places,
    Omega,
}

impl CheckOption {
    /// The option that a word names in full.
    pub(crate) fn from_flag(word: &str) -> Option<CheckOption>
        ensures named { IfSome result (λ option. word.now ≡ flag_of option) }
        ensures other { IfNone result ((option : CheckOption) → word.now ≢ flag_of option) }
    {
        match word {
            "--lots" => Some(CheckOption::Lots),
            "--rule" => Some(CheckOption::Rule),
            "--places" => Some(CheckOption::Places),
            "--omega" => Some(CheckOption::Omega),
            _ => None,
        }
    }
}
