//! The machine's words. No value of these types is made: they are for contracts alone.
use mol_finish::Format;
use std::collections::LinkedList;

/// The greatest identifier.
pub const LAST_IDENTIFIER: u32 = 999_999_999;

/// The greatest generation of a disk.
pub const LAST_GENERATION: u32 = 4_294_967_295;

/// The number of items that a step of a copy writes.
pub const ITEMS_A_STEP: u32 = 256;

/// A commit's change: a text is registered under an identifier or replaces the one there, or it is withdrawn.
pub enum Change {
    Register {
        id: u32,
        format: Format,
        text: LinkedList<u8>,
    },
    Revise {
        id: u32,
        format: Format,
        text: LinkedList<u8>,
    },
    Withdraw {
        id: u32,
    },
}

/// The state of an identifier, with the version of the commit that made it so.
pub enum Status {
    Live {
        version: u32,
        format: Format,
        text: LinkedList<u8>,
    },
    Withdrawn {
        version: u32,
    },
}

/// The history of commits: the commits after a base, and the state of each identifier at the base's version.
/// Identifiers are in the base once, ascending.
pub struct History {
    pub base: LinkedList<(u32, Status)>,
    pub version: u32,
    pub commits: LinkedList<Change>,
}

/// A live record, as a page gives it.
pub struct Found {
    pub id: u32,
    pub format: Format,
    pub text: LinkedList<u8>,
}

/// A pin that is held.
pub struct Held {
    pub slot: u32,
    pub owner: u64,
    pub version: u32,
}

/// A kept entry: the state of an identifier that the commit of a version made.
pub struct Entry {
    pub id: u32,
    pub version: u32,
}

/// The numbers of faults that the two disks counted.
pub struct Faults {
    pub a: u64,
    pub b: u64,
}

/// A copy that runs: the version of its base's snapshot, and the number of items that it lacks.
pub struct Copying {
    pub version: u32,
    pub left: u32,
}

/// A state of the machine. `base` and `generation` are those of the disk that is read. `doubt` is a commit, and
/// `finish` the version of a copy, that may be on the disks or not. Between a Crash and the next Open nothing is
/// served.
pub struct State {
    pub history: History,
    pub limit: u32,
    pub pins: LinkedList<Held>,
    pub kept: LinkedList<Entry>,
    pub base: u32,
    pub generation: u32,
    pub copy: Option<Copying>,
    pub doubt: Option<Change>,
    pub finish: Option<u32>,
    pub faults: Faults,
    pub serves: bool,
}

/// The events. `Crash` and `Open` are no calls, and have no owner.
pub enum Event {
    Commit {
        change: Change,
    },
    Pin,
    Fetch {
        slot: u32,
        want: LinkedList<bool>,
        from: u32,
        limit: u32,
    },
    Unpin {
        slot: u32,
    },
    Prune,
    Look {
        id: u32,
    },
    Stats,
    Compact,
    Crash,
    Open,
}

/// The replies.
pub enum Reply {
    Committed {
        version: u32,
    },
    Known,
    Absent,
    Withdrawn,
    Full,
    DiskFault {
        doubt: bool,
    },
    Pinned {
        slot: u32,
        version: u32,
    },
    NoPin,
    Page {
        records: LinkedList<Found>,
        last: bool,
    },
    Unpinned,
    Pruned {
        dropped: u32,
    },
    Looked {
        status: Option<Status>,
    },
    Counted {
        version: u32,
        live: u32,
        withdrawn: u32,
        kept: u32,
        pins: u32,
    },
    More {
        left: u32,
    },
    Done {
        generation: u32,
    },
    Last,
    Crashed,
    Opened {
        version: u32,
    },
    NoMemory,
}

/// Times of the two disks' clocks.
pub struct Times {
    pub a: u64,
    pub b: u64,
}

/// A step of a run: the owner, the event, the reply, the states before and after it, and the times of its call's begin
/// and end. The owner of a Crash or an Open says nothing.
pub struct Step {
    pub owner: u64,
    pub event: Event,
    pub reply: Reply,
    pub before: State,
    pub after: State,
    pub begin: Times,
    pub end: Times,
}
