//! An index of prints by identifier and version, each with a value: from a place on, the next pair whose print holds
//! the bits that a pattern needs. All but `reserve` take no memory.
//!
//! A pair has the version before which it is its identifier's latest, as far as it was noted.
//!
//! The pairs are in ascending order in blocks of at most 256. Each block has a union of its prints, and rows: for each
//! bit, the columns of 64 that have it. A block is skipped if its union lacks a wanted bit, or if its rows for the
//! wanted bits have no column in common. Inserting or removing a pair moves no more than one block. A caller that goes
//! on after the last answer passes a hint, which saves the search for the block and for the place in it.
#![tactic(auto)]

mod block;
mod entry;
mod hint;
mod index;
mod rows;
mod union;
mod want;

pub use entry::Screened;
pub use hint::Hint;
pub use index::ScreenIndex;
pub use want::Want;

#[cfg(test)]
mod tests;
