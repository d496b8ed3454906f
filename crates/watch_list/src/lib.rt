//! Watches, repeated searches: up to 16 named patterns, each with its hits at a version, which one's own commits keep
//! up to date.
//!
//! A commit changes the state of one identifier. So a list that was right at the version before is right after one
//! match of the new record. A watch at another version is left alone: others committed meanwhile, and it is to be
//! filled anew.
#![tactic(auto)]

mod entry;
mod hits;
mod list;

pub use list::{MOST_WATCHES, Watches};
