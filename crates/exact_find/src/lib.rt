//! Exact structures: a test of whether two molecules are the same structure.
//!
//! Two molecules are the same if a one-to-one map takes atoms to like atoms, and the bonds of one to the bonds of the
//! other. Keys refuse most pairs, since equal structures have equal keys. A search for a map decides the rest, and
//! colour refinement keeps it short if many atoms look alike.
#![tactic(auto)]

mod colours;
mod fit;
mod key;
mod law;
mod levels;
mod palette;
mod sides;
mod walk;

pub use key::{Key, key_of};
pub use law::{same_have_equal_keys, same_is_reflexive, same_is_symmetric, same_is_transitive};
pub use walk::{SameScratch, same};
