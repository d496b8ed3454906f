//! The requests to a service, and its answers.
ghost use Rattle.std.specs.Prelude.{◌≡◌, ◌+◌, ◌<◌, ◌^◌, IfErr, IfOk, IfSome, MatchResult, None, option_copied, option_map, ℕ};
ghost use Rattle.store_machine.specs.History.{id_of};
ghost use Rattle.store_core.specs.Kept.{IsEntryOf, kept_of, status_of};
ghost use Rattle.store_core.specs.Replies.{Counts, IsLookOf, IsRefusal, IsSoundChange, MayCount, change_of, left_by, looked, refusal_by};

use crate::record::Record;
use std::alloc::AllocError;
use std::sync::Arc;
use thiserror::Error;

/// A change to be committed.
#[derive(Drop)]
pub enum Change {
    Register(Arc<Record>),
    Revise(Arc<Record>),
    Withdraw(u32),
}

impl Change {
    /// The identifier that it changes.
    pub fn id(&self) -> u32
        ensures id { result ≡ id_of (change_of self.now) }
        ensures sound { IsSoundChange self.now }
    {
        match self {
            Change::Register(record) | Change::Revise(record) => record.id(),
            Change::Withdraw(id) => *id,
        }
    }

    // The record that it leaves.
    pub(crate) fn entry(&self) -> Option<&Arc<Record>>
        ensures { option_copied result ≡ left_by self.now }
    {
        match self {
            Change::Register(record) | Change::Revise(record) => Some(record),
            Change::Withdraw(_) => None,
        }
    }

    // As `entry`, but consumes the change.
    pub(crate) fn into_entry(self) -> Option<Arc<Record>>
        ensures { result ≡ left_by self }
    {
        match self {
            Change::Register(record) | Change::Revise(record) => Some(record),
            Change::Withdraw(_) => None,
        }
    }

    // Checks whether it is allowed, by the status of its identifier.
    pub(crate) fn check(&self, now: Option<(u32, &Option<Arc<Record>>)>) -> Result<(), CommitFault>
        ensures { let refusal = refusal_by (option_map status_of (kept_of now.entry)) self.now in
            MatchResult result (λ _. refusal ≡ None) (λ fault. IsRefusal fault refusal) }
    {
        match (self, now) {
            (Change::Register(_), None) => Ok(()),
            (Change::Register(_), Some(_)) => Err(CommitFault::Known),
            (_, None) => Err(CommitFault::Absent),
            (_, Some((_, Some(_)))) => Ok(()),
            (_, Some((_, None))) => Err(CommitFault::Withdrawn),
        }
    }
}

// Live and withdrawn identifiers after a change.
pub(crate) fn counted(change: &Change, live: u32, withdrawn: u32) -> (u32, u32)
    requires few { live + withdrawn < 2 ^ 30 }
    requires some { MayCount change.now live }
    ensures { Counts change.now live withdrawn result.0 result.1 }
{
    match change {
        Change::Register(_) => (live + 1, withdrawn),
        Change::Revise(_) => (live, withdrawn),
        Change::Withdraw(_) => (live - 1, withdrawn + 1),
    }
}

/// Why a change is not committed.
#[derive(Clone, Copy, Debug, PartialEq, Eq, Error)]
pub enum CommitFault {
    /// The identifier to be registered was registered before.
    #[error("known")]
    Known,
    /// The identifier to be revised or withdrawn was never registered.
    #[error("absent")]
    Absent,
    /// The identifier to be revised or withdrawn is withdrawn.
    #[error("withdrawn")]
    Withdrawn,
    /// The most commits were made.
    #[error("full")]
    Full,
    /// A disk failed. With `doubt` a crash may yet show the change committed.
    #[error("the disk failed")]
    DiskFault { doubt: bool },
    /// The service answers no call any more.
    #[error("worn")]
    Worn,
    #[error("out of memory")]
    NoMemory,
}

impl From<AllocError> for CommitFault {
    ghost use Rattle.std.specs.Prelude.{◌≡◌};
    ghost use Rattle.store_core.specs.declared.words.CommitFault.TheVariants.{NoMemory};

    ghost from_gives = { λ _ e. e ≡ NoMemory };

    fn from(_: AllocError) -> CommitFault {
        CommitFault::NoMemory
    }
}

/// The status of an identifier at the head, with the version that made it.
#[derive(Drop)]
pub enum Look {
    Absent,
    Live { version: u32, entry: Arc<Record> },
    Withdrawn { version: u32 },
}

impl Look {
    // The look at an identifier, by its entry at the head. A record is shared once more.
    pub(crate) fn of(found: Option<(u32, &Option<Arc<Record>>)>) -> Result<Look, CallFault>
        ensures look { IfOk result (λ l. looked l ≡ option_map status_of (kept_of found.entry)) }
        ensures entry { (id : ℕ) → IfSome (kept_of found.entry) (λ k. IsEntryOf id k.value)
            → IfOk result (λ l. IsLookOf id l) }
        ensures err { IfErr result (λ e. e ≡ CallFault.NoMemory) }
    {
        match found {
            None => Ok(Look::Absent),
            Some((version, None)) => Ok(Look::Withdrawn { version }),
            Some((version, Some(entry))) => Ok(Look::Live {
                version,
                entry: Arc::try_clone(entry)?,
            }),
        }
    }
}

/// The status of an identifier at a version, with the version that made it: its record, `None` if it is withdrawn.
#[derive(Clone, Copy)]
pub struct IdState<'a> {
    pub id: u32,
    pub made_at: u32,
    pub entry: Option<&'a Arc<Record>>,
}

/// Counts: the head's version, live and withdrawn identifiers there, kept entries, and pins.
#[derive(Clone, Copy, Debug, PartialEq, Eq)]
pub struct Stats {
    pub version: u32,
    pub live: u32,
    pub withdrawn: u32,
    pub kept: u32,
    pub pins: u32,
}

/// Why a call has no answer.
#[derive(Clone, Copy, Debug, PartialEq, Eq, Error)]
pub enum CallFault {
    /// The service answers no call any more.
    #[error("worn")]
    Worn,
    #[error("out of memory")]
    NoMemory,
}

impl From<AllocError> for CallFault {
    ghost use Rattle.std.specs.Prelude.{◌≡◌};
    ghost use Rattle.store_core.specs.declared.words.CallFault.TheVariants.{NoMemory};

    ghost from_gives = { λ _ e. e ≡ NoMemory };

    fn from(_: AllocError) -> CallFault {
        CallFault::NoMemory
    }
}

/// The result of one step of a compaction.
#[derive(Clone, Copy, Debug, PartialEq, Eq)]
pub enum Compact {
    /// A copy runs, and lacks `left` items.
    More { left: u32 },
    /// The copy replaced the disk that was read. It is of this generation.
    Done { generation: u32 },
}

/// Why a step of a compaction is not made.
#[derive(Clone, Copy, Debug, PartialEq, Eq, Error)]
pub enum CompactFault {
    /// No generation is left, so that no copy may start. A store in memory always answers so.
    #[error("the last generation")]
    Last,
    /// A disk failed, and the copy is given up. With `doubt` a crash may yet show it in place of the disk that is read.
    #[error("the disk failed")]
    DiskFault { doubt: bool },
    /// The service answers no call any more.
    #[error("worn")]
    Worn,
    /// Some of the step's items may be written.
    #[error("out of memory")]
    NoMemory,
}

impl From<AllocError> for CompactFault {
    ghost use Rattle.std.specs.Prelude.{◌≡◌};
    ghost use Rattle.store_core.specs.declared.words.CompactFault.TheVariants.{NoMemory};

    ghost from_gives = { λ _ e. e ≡ NoMemory };

    fn from(_: AllocError) -> CompactFault {
        CompactFault::NoMemory
    }
}
