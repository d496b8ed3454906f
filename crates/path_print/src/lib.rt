//! Prints of molecules and needs of patterns: the bits of their paths of up to five atoms.
//!
//! A molecule in which a pattern embeds has every bit that the pattern needs. By this law most molecules are ruled out
//! without a search.
#![tactic(auto)]

mod arm;
mod arms;
mod implied;
mod known;
mod law;
mod molecule;
mod path;
mod pattern;
mod rows;
mod step;
mod text;

pub use law::{implied_is_so, path_bit_is_set, path_is_carried, screen_law};
pub use molecule::print;
pub use pattern::need;
