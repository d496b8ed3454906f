//! A copy that runs on the disk that is not read. Its items are the states at its version, as base records, and behind
//! them the commits that were made since, as they were logged.

ghost use Rattle.std.specs.Prelude.{◌≡◌, ◌+◌, ◌<◌, ◌^◌, [], OnOk, option_map};
ghost use Rattle.std.specs.VecDeque.{deque_len};
ghost use Rattle.store_disk.specs.Copies.{HasRoom, copy_of, queued};

use std::alloc::{AllocError, Global};
use std::collections::VecDeque;

/// A copy of a version: the identifier from which its next state is sought, how many states it lacks, and the payloads
/// of the commits that it lacks.
#[derive(Drop)]
pub(crate) struct Copying {
    pub(crate) version: u32,
    pub(crate) from: u32,
    pub(crate) states: u32,
    pub(crate) commits: VecDeque<Vec<u8>>,
}

impl Copying {
    /// It lacks each of `states` states. Takes no memory.
    pub(crate) fn new(alloc: Global, version: u32, states: u32) -> Copying
        ensures { copy_of result ≡ record {
          version = version;
          from = 0;
          states = states;
          commits = [];
        } }
    {
        Copying {
            version,
            from: 0,
            states,
            commits: VecDeque::new(alloc),
        }
    }

    /// How many items it lacks.
    pub(crate) fn left(&self) -> u32
        requires { self.now.states + deque_len self.now.commits < 2 ^ 32 }
        ensures { result ≡ self.now.states + deque_len self.now.commits }
    {
        self.states + self.commits.len() as u32
    }
}

/// Takes the memory of a commit more, where a copy runs.
pub(crate) fn reserve(copy: &mut Option<Copying>) -> Result<(), AllocError>
    ensures room { OnOk result (HasRoom copy.new) }
    ensures same { option_map copy_of copy.new ≡ option_map copy_of copy.old }
{
    match copy {
        Some(copy) => copy.commits.reserve(1),
        None => Ok(()),
    }
}

/// A commit more, where a copy runs. It takes no memory.
pub(crate) fn queue(copy: &mut Option<Copying>, payload: Vec<u8>)
    requires { HasRoom copy.old }
    ensures { option_map copy_of copy.new ≡ option_map (queued payload.items) (option_map copy_of copy.old) }
{
    if let Some(copy) = copy {
        copy.commits.push_back_reserved(payload);
    }
}
