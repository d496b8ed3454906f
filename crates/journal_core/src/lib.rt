//! A journal over a disk: payloads, each on the disk before it is acknowledged, whatever a crash leaves. A file of
//! format 2 has base records before them, which are read and never appended to. `Journal::append` answers `Ok` only if
//! no later crash loses the payload. A crash during the call leaves the payloads from before it, with the new one or
//! without. The proofs use only the disk model of `disk_edge`.
#![tactic(auto)]

mod base;
mod faults;
mod format;
mod header;
mod journal;
mod laws;
mod open;
mod record;
mod synced;
mod window;

pub use faults::{AppendFault, CreateFault, LoadFault};
pub use format::{CLOSED, LONGEST_PAYLOAD, OPEN};
pub use header::Header;
pub use journal::Journal;
pub use laws::{a_text_opens, bytes_open_one_way};
pub use open::peek_header;
pub use synced::put;
