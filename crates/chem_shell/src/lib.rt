//! The top call of chemdb: it takes words, ends and disks, and returns them with their statuses.
//!
//! The words are read by a table of commands into a plan. `mem` is one session over a store in memory. `bulk` runs a
//! generated script on one, and puts the summary of its transcript. `drill` is sixteen sessions on one; its lines stop
//! or fail the disks, and open it again. `init` makes an empty store on two disks. `run` is one session over the store
//! that is there, and `serve` several at a time.
#![tactic(auto)]

mod bulk;
mod disk;
mod drill;
mod fault;
mod mem;
mod outcome;
mod request;
mod serve;
mod settings;
pub mod status;
mod top;
mod words;

pub use outcome::Outcome;
pub use request::{Plan, PlanFault, Verb};
pub use serve_ends::End;
pub use settings::INPUT_LIMIT;
pub use top::chemdb;
pub use words::{plan, word_fault};
