//! Lookups over a service, at one pinned version: the records of the same structure as a given one, the most similar
//! ones, and the hits of a pattern.
//!
//! A lookup takes its memory, pins the head, fetches page after page and gives the pin back. A law of the machine says
//! that it lists exactly the answers of the history at its version.
#![tactic(auto)]

mod hits;
mod law;
mod pages;
mod same;
mod similar;

pub use hits::{HitList, find_hits, find_newer_hits};
pub use law::{
    same_have_equal_prints, sames_are_answers, similars_are_answers, structures_have_bits,
};
pub use par_search::SearchFault;
pub use same::find_same;
pub use similar::{SimilarList, Similarity, find_similar};
