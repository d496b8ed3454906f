//! A store of structures on two disks: the store in memory of `store_core`, and on the disk that is read a journal that
//! has each commit before it is acknowledged.
//!
//! `Store::load` reads one of two disks, and `Store` is then a `Service`: each call is a step of the machine. At each
//! state the disks have the history, and the commit in doubt, if any. So a crash leaves every commit that was
//! acknowledged, and at most one more: the one in doubt, or the one that is being made.
//!
//! `compact` copies the store, some items at a time, to the disk that is not read: the states at the version at which
//! it began, and then the commits made since. A copy that lacks nothing takes the place of the disk that is read.
//!
//! `Store::in_memory` makes a store that is never opened again. It keeps no journal, and its copies are written to
//! nowhere.
#![tactic(auto)]

mod below;
mod compact;
mod copy;
mod disks;
mod item;
mod laws;
mod payload;
mod replay;
mod store;
mod texts;
mod together;

pub use disks::Disks;
pub use laws::{
    a_doubt_may_be_left, a_standing_store_opens, a_store_opens_one_way, copies_go_on,
    stores_ask_no_owner, what_disks_have_after, what_is_left_is_recovered, what_was_written_opens,
};
pub use store::Store;
