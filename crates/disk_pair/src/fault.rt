//! Why a call on two disks is refused.

use thiserror::Error;

/// Why a commit was not made, or a copy not started, continued or finished.
#[derive(Clone, Copy, Debug, PartialEq, Eq, Error)]
pub enum PutFault {
    /// A disk failed, and counted a fault. With `doubt` a crash may leave the commit, or the complete copy.
    #[error("a disk failed")]
    DiskFault { doubt: bool },
    /// Memory ran out.
    #[error("out of memory")]
    NoMemory,
}
