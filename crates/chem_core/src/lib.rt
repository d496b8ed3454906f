//! The data of structures: sketches as they are written, molecules as they are meant, fingerprints, and the table of
//! the elements. The definitions that contracts share are in `specs/`.
#![tactic(auto)]

mod adjacency;
mod bits;
mod element;
mod limits;
mod mol;
mod print;
mod sketch;
mod sort_counts;
mod symbols;

pub use adjacency::{Adjacency, Step};
pub use element::{number_of, symbol_of};
pub use limits::{MOST_ATOMS, MOST_BONDS, MOST_NEIGHBOURS, are_few_neighbours};
pub use mol::{Atom, Bond, BondKind, Mol, one_neighbour_list, same_component};
pub use print::Print;
pub use sketch::{Fill, Sketch, SketchAtom, SketchBond, SketchKind};
pub use sort_counts::{BondSort, SORT_ROOM, SortCounts, atom_sorts, bond_sorts, raise};
pub use symbols::class;
