//! The kept entries of a store by identifier and version: the latest of an identifier at a version, and the entries
//! that no version in use reads. All but `reserve` take no memory.
//!
//! An identifier has a chain of its entries in the order of their versions.
#![tactic(auto)]

mod chain;
mod chains;
mod counted;
mod entries;
mod finder;
mod readings;
mod ring;
mod steps;

pub use chains::Chains;
pub use counted::Counted;
pub use finder::Finder;
pub use readings::Readings;
pub use steps::Steps;
