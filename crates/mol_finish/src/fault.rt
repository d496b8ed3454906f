//! Formats of structures, and why a text has no structure.
ghost use Rattle.std.specs.Prelude.{◌≡◌};

use aromatic::AromFault;
use molfile_read::MolfileFault;
use smiles_read::SmilesFault;
use std::alloc::AllocError;
use thiserror::Error;

/// The format of a structure.
#[derive(Clone, Copy, Debug, PartialEq, Eq)]
pub enum Format {
    /// OpenSMILES 1.0.
    Smiles,
    /// CTfile formats, version V2000.
    Molfile,
}

/// Why a text has no structure.
#[derive(Clone, Copy, Debug, PartialEq, Eq, Error)]
pub enum TextFault {
    /// The SMILES is refused. The inner fault is never `NoMemory`.
    #[error("{0}")]
    Smiles(SmilesFault),
    /// The molfile is refused. The inner fault is never `NoMemory`.
    #[error("{0}")]
    Molfile(MolfileFault),
    /// Memory ran out in one of the stages.
    #[error("out of memory")]
    NoMemory,
}

impl From<SmilesFault> for TextFault {
    ghost use Rattle.mol_finish.specs.Faults.{reading_fault};

    ghost from_gives = { λ fault e. e ≡ reading_fault fault };

    fn from(fault: SmilesFault) -> TextFault {
        match fault {
            SmilesFault::NoMemory => TextFault::NoMemory,
            fault => TextFault::Smiles(fault),
        }
    }
}

impl From<MolfileFault> for TextFault {
    ghost use Rattle.mol_finish.specs.Faults.{molfile_fault};

    ghost from_gives = { λ fault e. e ≡ molfile_fault fault };

    fn from(fault: MolfileFault) -> TextFault {
        match fault {
            MolfileFault::NoMemory => TextFault::NoMemory,
            fault => TextFault::Molfile(fault),
        }
    }
}

impl From<AromFault> for TextFault {
    ghost use Rattle.mol_finish.specs.Faults.{ring_fault};

    ghost from_gives = { λ fault e. e ≡ ring_fault fault };

    fn from(fault: AromFault) -> TextFault {
        match fault {
            AromFault::Aromatic(written) => TextFault::Smiles(SmilesFault::Aromatic(written)),
            AromFault::NoMemory => TextFault::NoMemory,
        }
    }
}

impl From<AllocError> for TextFault {
    ghost use Rattle.mol_finish.specs.declared.fault.TextFault.TheVariants.{NoMemory};

    ghost from_gives = { λ _ e. e ≡ NoMemory };

    fn from(_: AllocError) -> TextFault {
        TextFault::NoMemory
    }
}
