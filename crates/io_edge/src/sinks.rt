//! A sink, into which bytes are put.
ghost use Rattle.std.specs.Prelude.{◌≡◌, ◌<◌, ◌≤◌, ◌^◌, ℕ, List, [], Option, OnOk};
ghost use Rattle.std.specs.Io.KnownBytes.{Appends};
ghost use Rattle.io_edge.specs.Faults.{Rose};
ghost use Rattle.io_edge.specs.Sink.{OnFailed, OnNoMemory, AppendsPrefix};
ghost use Rattle.io_edge.specs.declared.sinks.PutFault.TheVariants.{NoMemory};

use std::alloc::AllocError;
use thiserror::Error;

/// Why a put did not succeed.
#[derive(Clone, Copy, Debug, PartialEq, Eq, Error)]
pub enum PutFault {
    /// The sink failed, and counted a fault. Some of the bytes, from the first on, may have been put.
    #[error("the sink failed")]
    Failed,
    /// No memory was left. Nothing was put.
    #[error("out of memory")]
    NoMemory,
}

impl From<AllocError> for PutFault {
    ghost from_gives = { λ _ fault. fault ≡ NoMemory };

    fn from(_: AllocError) -> PutFault {
        PutFault::NoMemory
    }
}

/// A sink, into which bytes are put, one piece after the other.
pub trait Sink {
    /// The bytes that were put, if they are known.
    ghost written: { Self → Option (List ℕ) };

    /// The number of faults. The count stays at 2^64 - 1.
    ghost faults: { Self → ℕ };

    /// Puts all of `bytes` after the earlier ones.
    fn put(&mut self, bytes: &[u8]) -> Result<(), PutFault>
        ensures ok { OnOk result (Appends (written self.old) (written self.new) bytes.now) }

        ensures failed { OnFailed result (Rose (faults self.old) (faults self.new)) }
        ensures part { OnFailed result (AppendsPrefix (written self.old) (written self.new) bytes.now) }

        ensures no_memory { OnNoMemory result (Appends (written self.old) (written self.new) []) }

        ensures count { faults self.old ≤ faults self.new }
        ensures held { faults self.new < 2 ^ 64 };
}
