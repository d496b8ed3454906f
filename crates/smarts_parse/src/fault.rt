//! Why a text is not a pattern.

ghost use Rattle.std.specs.Prelude.{◌≡◌};
ghost use Rattle.smarts_parse.specs.declared.fault.SmartsFault.TheVariants.{NoMemory};
ghost use Rattle.smarts_parse.specs.Faults.{fault_of};

use line_walk::Fault;
use std::alloc::{AllocError, AllocFailed};
use thiserror::Error;

/// Why a text is not a pattern.
#[derive(Clone, Copy, Debug, PartialEq, Eq, Error)]
pub enum SmartsFault {
    /// `>`: reactions are not read.
    #[error("a reaction")]
    Reaction,
    /// The text is not in the grammar.
    #[error("not a SMARTS pattern")]
    Syntax,
    /// `/`, `\` or `@` in brackets: configurations are not read.
    #[error("a configuration is not read")]
    Stereo,
    /// `R<n>` with n above 0, the number of rings of a ring set at an atom: such sets are not unique.
    #[error("a count of a ring set")]
    RingSet,
    /// A ring number that is open at the end, has two bonds that differ, or joins atoms that are one or bonded.
    #[error("a ring number does not pair")]
    Ring,
    /// More than 4,096 bytes; or more than 256 atoms, 64 recursive parts, 8 of these within one another, or 256
    /// branches open at once.
    #[error("above a limit")]
    Limit,
    /// Memory ran out.
    #[error("out of memory")]
    NoMemory,
}

impl From<AllocError> for SmartsFault {
    ghost from_gives = { λ _ e. e ≡ NoMemory };

    fn from(_e: AllocError) -> SmartsFault {
        SmartsFault::NoMemory
    }
}

impl<T: Drop> From<AllocFailed<T>> for SmartsFault {
    ghost from_gives = { λ _ e. e ≡ NoMemory };

    fn from(_e: AllocFailed<T>) -> SmartsFault {
        SmartsFault::NoMemory
    }
}

impl From<Fault> for SmartsFault {
    ghost from_gives = { λ e f. f ≡ fault_of e };

    fn from(e: Fault) -> SmartsFault {
        match e {
            Fault::Syntax => SmartsFault::Syntax,
            Fault::Ring => SmartsFault::Ring,
            Fault::NoMemory => SmartsFault::NoMemory,
        }
    }
}
