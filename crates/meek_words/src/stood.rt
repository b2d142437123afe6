ghost use Rattle.std.specs.Prelude.{◌≡◌, ◌||◌, Option, false, not};
ghost use Rattle.meek_words.specs.Parts.{same_option};
ghost use Rattle.meek_words.specs.Stands.{stands};
ghost use Rattle.meek_words.specs.declared.option_name.OptionName.{OptionName};

use crate::option_name::OptionName;
use std::mem;

/// Which options stood so far, and whether a plain word did.
#[derive(Clone, Copy)]
pub(crate) struct Stood {
    lots: bool,
    shards: bool,
    workers: bool,
    plain: bool,
}

impl Stood {
    pub(crate) fn nothing() -> Stood
        ensures { (option : Option OptionName) → stands result option ≡ false }
    {
        Stood {
            lots: false,
            shards: false,
            workers: false,
            plain: false,
        }
    }

    /// Notes an option, or a plain word, and says whether it is the first of its kind.
    pub(crate) fn is_first(&mut self, option: Option<OptionName>) -> bool
        ensures answer { result ≡ not (stands self.old option) }
        ensures noted { (other : Option OptionName)
            → stands self.new other ≡ (stands self.old other || same_option other option) }
    {
        let stood = match option {
            Some(OptionName::Lots) => mem::replace(&mut self.lots, true),
            Some(OptionName::Shards) => mem::replace(&mut self.shards, true),
            Some(OptionName::Workers) => mem::replace(&mut self.workers, true),
            None => mem::replace(&mut self.plain, true),
        };
        !stood
    }
}
