//! Why a molfile is refused.
ghost use Rattle.std.specs.Prelude.{◌≡◌};
ghost use Rattle.molfile_read.specs.declared.fault.MolfileFault.TheVariants.{NoMemory};

use std::alloc::{AllocError, AllocFailed};
use thiserror::Error;

/// Why a molfile is refused. Lines count from 1. A text that breaks several rules has the first fault of this order.
/// First `Limit` for a text that is too long, then the fault of the first line that has one. Then `Cut`, then `Columns`
/// for a mass difference, and last `Limit` by an atom's neighbours.
#[derive(Clone, Copy, Debug, PartialEq, Eq, Error)]
pub enum MolfileFault {
    /// The counts line, which is line 4, has no number of atoms or of bonds, no atoms, text blocks, or another version
    /// than V2000.
    #[error("the counts line is not one of V2000")]
    Header,
    /// A field of this line has an invalid value, or the line is no property line. Also the line of an atom with a mass
    /// difference, if there is no line `M  ISO`.
    #[error("line {0} has a field that is not read")]
    Columns(u32),
    /// The bond of this line joins an atom to itself, or ends at no atom, or joins two atoms that have a bond.
    #[error("line {0}: a bond's ends are out of range, equal, or bonded already")]
    Bond(u32),
    /// This line holds values that only queries use.
    #[error("line {0} belongs to a query")]
    Query(u32),
    /// More than 262,144 bytes, or more than 12 neighbours of an atom.
    #[error("above a limit")]
    Limit,
    /// The lines end before `M  END`.
    #[error("the end is missing")]
    Cut,
    /// Memory ran out.
    #[error("out of memory")]
    NoMemory,
}

impl From<AllocError> for MolfileFault {
    ghost from_gives = { λ _ e. e ≡ NoMemory };

    fn from(_e: AllocError) -> MolfileFault {
        MolfileFault::NoMemory
    }
}

impl<T: Drop> From<AllocFailed<T>> for MolfileFault {
    ghost from_gives = { λ _ e. e ≡ NoMemory };

    fn from(_e: AllocFailed<T>) -> MolfileFault {
        MolfileFault::NoMemory
    }
}
