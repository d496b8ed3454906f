//! The subject of a search: a graph, and the molecule in which it is placed.

use crate::plan::EarlierBonds;
use chem_core::Mol;
use smarts_mean::RecTable;
use smarts_parse::Graph;

/// A graph to be placed in a molecule. The table says at which atoms recursive parts hold.
#[derive(Clone, Copy)]
pub struct Task<'a> {
    pub graph: &'a Graph,
    pub mol: &'a Mol,
    pub table: &'a RecTable,
    pub steps: &'a [EarlierBonds],
}
