//! Why words are not read.
ghost use Rattle.std.specs.Prelude.{◌≡◌};
ghost use Rattle.clap.specs.Words.{kind_of};
ghost use Rattle.clap.specs.declared.error.kind.ErrorKind.TheVariants.{OutOfMemory};
ghost use Rattle.bats_words.specs.declared.words_end.WordsEnd.TheVariants.{Memory};

use clap::error::ErrorKind;
use std::alloc::AllocError;

/// Why words give no command.
#[derive(Clone, Copy, Debug, PartialEq, Eq)]
pub enum WordsEnd {
    /// Memory ran out.
    Memory,
    /// The words are no command.
    Usage,
}

impl From<AllocError> for WordsEnd {
    ghost from_gives = { λ _ end. end ≡ Memory };

    fn from(_error: AllocError) -> WordsEnd {
        WordsEnd::Memory
    }
}

impl From<clap::Error> for WordsEnd {
    ghost from_gives = { λ error end. kind_of error ≡ OutOfMemory → end ≡ Memory };

    fn from(error: clap::Error) -> WordsEnd {
        match error.kind() {
            ErrorKind::OutOfMemory => WordsEnd::Memory,
            _ => WordsEnd::Usage,
        }
    }
}
