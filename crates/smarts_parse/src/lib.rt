//! SMARTS patterns: their graphs, their truth at a molecule, and their reading (Daylight Theory Manual, chapter
//! SMARTS).
//!
//! A text and its recursive parts are read once, to a draft, if all of it is in the grammar. Parts of the draft that
//! are refused are reported in a fixed order. Then its ring numbers are paired, and the graphs are built, those of
//! recursive parts in the order in which their parentheses close.
#![tactic(auto)]

mod build;
mod close;
mod draft;
mod expr;
mod fault;
mod items;
mod law;
mod pattern;
mod read;
mod smarts;

pub use fault::SmartsFault;
pub use law::parts_hold;
pub use pattern::{AtomPrim, BondPrim, Expr, Graph, PatBond, Pattern};
pub use read::{is_complete, one_answer, one_tree, parse};
