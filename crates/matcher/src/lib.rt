//! Embeddings of a SMARTS pattern in a molecule (Daylight Theory Manual, chapter SMARTS): the least one, and a test.
//!
//! A molecule is refused at once if it has fewer atoms or bonds of a sort than the pattern surely has, or no ring for
//! one of the pattern's rings. Then the pattern's atoms are placed in turn. An atom that a bond joins to an earlier one
//! is placed along the bonds of the molecule from there; any other is tried anywhere. If any embedding serves, the
//! search begins at an atom with few candidates, and components of several atoms are first searched for by themselves.
//! Each expression is asked once at each atom before a graph is searched for. For a pattern with groups, the components
//! in which each group can be placed are found first, and then different ones for all. The number of tries is not
//! bounded.
//!
//! `Scratch::prepare` works out all that depends on the pattern alone, once for searches in any number of molecules.
#![tactic(auto)]

mod answer;
mod candidates;
mod choices;
mod class;
mod first_line;
mod fit;
mod follow;
mod group;
mod grouping;
mod hunt;
mod lay;
mod lean;
mod narrow;
mod parts;
mod plan;
mod planned;
mod prepare;
mod refusal;
mod ring;
mod route;
mod scratch;
mod search;
mod second;
mod task;
mod wanted;

pub use answer::{Embedding, first, has};
pub use scratch::Scratch;
