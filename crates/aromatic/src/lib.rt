//! Aromatic atoms and bonds, by electron counts on Hückel cycles.
//!
//! One pass over the bonds counts the facts that the table reads of each atom (`environment`, `table`). Ring bonds
//! between candidates become links (`links`). From each of them that is not marked yet a search looks for a Hückel
//! cycle through it. It marks the whole cycle, or rules the bond out for later searches (`huckel`, `cycle`). It tries
//! an atom only if that is near enough to the search's target (`distance`). Another pass over the bonds sums up
//! valences and finds refused atoms (`bond_tallies`, `perception`).
#![tactic(auto)]

mod bond_tallies;
mod cycle;
mod distance;
mod environment;
mod huckel;
mod limits;
mod links;
mod perception;
mod table;

pub use perception::{Arom, AromFault, electrons, perceive, perceive_in};
pub use table::one_row;
