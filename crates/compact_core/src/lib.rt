//! A copy of a store on its other disk, in format 2: base records, and then commits.
//!
//! Until a copy is whole and synced, its disk is *shut*: no image of it is open, whatever a crash leaves. `Carry` is
//! the running copy, and `Carry::finish` makes it a journal. Its records are gathered in memory, and many are written
//! at once. `shut` ends a finish that is in doubt. It uses `journal_core`.
#![tactic(auto)]

mod carry;
mod closing;
mod extend;
mod gather;

pub use carry::{Carry, CopyFault, FinishFault};
pub use closing::shut;
