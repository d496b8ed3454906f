//! A request: the plan that the words of the command line ask for.

use thiserror::Error;

/// A command.
#[derive(Clone, Copy, Debug, PartialEq, Eq)]
pub enum Verb {
    /// One session over a store in memory.
    Mem,
    /// An empty store is made on two disks. No end is served.
    Init,
    /// One session over the store of two disks.
    Run,
    /// Several sessions at a time over the store of two disks.
    Serve,
    /// A generated script on a store in memory, and the summary of its transcript.
    Bulk,
    /// One drill: sessions on a store in memory whose disks are stopped, failed and reopened.
    Drill,
}

/// The plan of the words: a command and its settings.
#[derive(Debug, Drop)]
pub struct Plan<'w> {
    pub command: Verb,
    /// The store's file, if the command has one.
    pub file: Option<&'w str>,
    /// The scripts, one for each end, if they are files.
    pub scripts: Vec<&'w str>,
    /// The number of ends that are served.
    pub ends: u32,
    /// Threads for searches and opening, 1 to 16.
    pub workers: u32,
    /// Records in a page, 1 to 256.
    pub page: u32,
    /// The most commits that a store may have, 1 to 16,777,215.
    pub commits: u32,
    /// The seed of a generated script, 1 to 2,147,483,646; 0 if the command has none.
    pub seed: u32,
    /// The number of structures that a generated script registers, 0 to 100,000; 0 if the command has none.
    pub count: u32,
}

/// Why there is no plan.
#[derive(Clone, Copy, Debug, PartialEq, Eq, Error)]
pub enum PlanFault {
    #[error("the words ask for nothing that is known")]
    Usage,
    #[error("out of memory")]
    NoMemory,
}
