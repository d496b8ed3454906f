//! The two disks of a store. One of them is read, the current one: of two that are open the one of greater generation,
//! and the first if both are equal. A commit is appended to it. A copy of the store is made on the other one, and once
//! it is whole it is read in place of the first. So a store drops the bytes that it no longer needs.
//!
//! At every moment of every call a crash leaves two disks that open to a possible history. One is that from before the
//! call, with the commit in doubt or without. Others are the copy whose finish is in doubt, and that which the call
//! makes. The crate sees payloads alone, and decodes none. The crates above choose the contents of a copy.
#![tactic(auto)]

mod choice;
mod fault;
mod law;
mod opening;
mod other;
mod pair;
mod put;

pub use choice::Which;
pub use fault::PutFault;
pub use law::{a_crash_leaves_one, a_crash_may_leave_a_doubt, a_pair_opens_one_way};
pub use opening::{Picked, load, which_is_read};
pub use pair::Pair;
