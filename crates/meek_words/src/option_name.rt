ghost use Rattle.std.specs.Prelude.{◌≡◌, ◌≢◌, IfNone, IfSome};
ghost use Rattle.meek_words.specs.Parts.{flag_of};
ghost use Rattle.meek_words.specs.declared.option_name.OptionName.{OptionName};

/// An option of the command line.
#[derive(Clone, Copy)]
pub(crate) enum OptionName {
    Lots,
    Shards,
    Workers,
}

impl OptionName {
    /// The option that a word names in full.
    pub(crate) fn from_flag(word: &str) -> Option<OptionName>
        ensures named { IfSome result (λ name. word.now ≡ flag_of name) }
        ensures other { IfNone result ((name : OptionName) → word.now ≢ flag_of name) }
    {
        match word {
            "--lots" => Some(OptionName::Lots),
            "--shards" => Some(OptionName::Shards),
            "--workers" => Some(OptionName::Workers),
            _ => None,
        }
    }
}
