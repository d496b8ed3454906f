//! The word that is wrong, and why.
ghost use Rattle.std.specs.Prelude.{◌≡◌};

use std::alloc::AllocError;
use thiserror::Error;

/// Why words are refused. Its text is a sentence in one line.
#[derive(Debug, Drop, Error)]
pub(crate) enum WordFault<'w> {
    /// `clap` refuses the words, for this reason.
    #[error("{0}")]
    Refused(String),
    #[error("a command is missing")]
    NoCommand,
    #[error("there is no command {0:?}")]
    UnknownCommand(&'w str),
    #[error("{command} takes no word {word:?}")]
    SurplusWord {
        command: &'static str,
        word: &'w str,
    },
    #[error("{command} wants {name}")]
    MissingWord {
        command: &'static str,
        name: &'static str,
    },
    #[error("{command} takes no {name}")]
    UnusedOption {
        command: &'static str,
        name: &'static str,
    },
    /// A word is no decimal of a range.
    #[error("{name} is a decimal from {least} to {most}, not {word:?}")]
    NotInRange {
        name: &'static str,
        least: u32,
        most: u32,
        word: &'w str,
    },
    #[error("out of memory")]
    NoMemory,
}

impl From<AllocError> for WordFault<'_> {
    ghost use Rattle.chem_shell.specs.declared.fault.WordFault.TheVariants.{NoMemory};

    ghost from_gives = { λ _ fault. fault ≡ NoMemory };

    fn from(_: AllocError) -> Self {
        WordFault::NoMemory
    }
}
