//! A store of structures: the calls of a service, and the store in memory that answers them.
//!
//! A service is the machine of `store_machine` as one caller sees it: each call is a step of one run, in which others
//! may have steps too. A session over any service is then proved once.
#![tactic(auto)]

mod kept;
mod laws;
mod page;
mod record;
mod service;
mod states;
mod store;
mod waiting;
mod words;

pub use laws::{calls_serve_any_disks, stores_ask_no_owner, versions_in_use_are_kept};
pub use page::Page;
pub use record::{Record, Recorder};
pub use record_versions::Steps;
pub use service::Service;
pub use states::States;
pub use store::{MOST_COMMITS, Store};
pub use words::{CallFault, Change, CommitFault, Compact, CompactFault, IdState, Look, Stats};
