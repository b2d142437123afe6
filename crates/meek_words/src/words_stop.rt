ghost use Rattle.std.specs.Prelude.{◌≡◌};
ghost use Rattle.meek_words.specs.declared.words_stop.WordsStop.TheVariants.{NoMemory};

use crate::PushBack;
use std::alloc::AllocError;

/// Why words gave no answer.
#[derive(Clone, Copy, Debug, PartialEq, Eq)]
pub enum WordsStop {
    /// The words have no form that the program knows.
    BadWords,
    /// Want of memory, whatever the words are.
    NoMemory,
}

impl From<PushBack<u32>> for WordsStop {
    ghost from_gives = { λ _ stop. stop ≡ NoMemory };

    fn from(_back: PushBack<u32>) -> WordsStop {
        WordsStop::NoMemory
    }
}

impl From<AllocError> for WordsStop {
    ghost from_gives = { λ _ stop. stop ≡ NoMemory };

    fn from(_error: AllocError) -> WordsStop {
        WordsStop::NoMemory
    }
}
