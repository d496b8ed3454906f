//! Similar structures: the number of bits that two prints share, and the best of the offers.
//!
//! Likeness is the Tanimoto coefficient (Daylight Theory Manual, chapter Fingerprints): the bits in both prints over
//! the bits in at least one. Fractions are compared as whole numbers, so nothing is rounded.
#![tactic(auto)]

mod best;
mod shared;

pub use best::{Best, MOST_HITS};
pub use shared::{most_alike, score};
