//! Why a SMILES is refused.

ghost use Rattle.std.specs.Prelude.{◌≡◌};
ghost use Rattle.smiles_read.specs.declared.fault.SmilesFault.TheVariants.{NoMemory};

use line_walk::Fault;
use std::alloc::{AllocError, AllocFailed};
use thiserror::Error;

/// Why a SMILES is refused. A text that breaks several rules has the first fault of this order: `Limit` for over 65,536
/// bytes, `Syntax`, `Ring`, `Limit` by the number of its parts.
#[derive(Clone, Copy, Debug, PartialEq, Eq, Error)]
pub enum SmilesFault {
    /// The text is not in the grammar.
    #[error("not a SMILES")]
    Syntax,
    /// A ring number stays open, its two bond symbols disagree, or it joins an atom with itself or two atoms that have
    /// a bond.
    #[error("a ring number does not pair")]
    Ring,
    /// More than 65,536 bytes, 256 branches open at once, 999 atoms, 999 bonds, or 12 neighbours of an atom.
    #[error("above a limit")]
    Limit,
    /// A lower-case atom lies on no aromatic ring, or a bond `:` ends at an atom that is not lower-case; the atom's
    /// place as written. Reading alone never answers it.
    #[error("atom {0} is not aromatic")]
    Aromatic(u16),
    /// Memory ran out.
    #[error("out of memory")]
    NoMemory,
}

impl From<Fault> for SmilesFault {
    ghost use Rattle.smiles_read.specs.Faults.{walk_fault};

    ghost from_gives = { λ e f. f ≡ walk_fault e };

    fn from(e: Fault) -> SmilesFault {
        match e {
            Fault::Syntax => SmilesFault::Syntax,
            Fault::Ring => SmilesFault::Ring,
            Fault::NoMemory => SmilesFault::NoMemory,
        }
    }
}

impl From<AllocError> for SmilesFault {
    ghost from_gives = { λ _ e. e ≡ NoMemory };

    fn from(_e: AllocError) -> SmilesFault {
        SmilesFault::NoMemory
    }
}

impl<T: Drop> From<AllocFailed<T>> for SmilesFault {
    ghost from_gives = { λ _ e. e ≡ NoMemory };

    fn from(_e: AllocFailed<T>) -> SmilesFault {
        SmilesFault::NoMemory
    }
}
